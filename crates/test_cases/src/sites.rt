// The plans and the tables of junctions.

/// Two groups: K1 is green in stage 1 and K2 in stage 2; six seconds lead from the one to the other, and five back.
pub const TWO_STAGES: &[u8] = b"\
$SIGNAL_GROUPS\n\
K1 1\n\
K2 2\n\
$STAGES\n\
S1 K1\n\
red K2\n\
S2 K2\n\
red K1\n\
$STARTING_STAGE\n\
S1\n\
$INTERSTAGE1\n\
Length [s]: 6\n\
From Stage: 1\n\
To Stage: 2\n\
$ redend grend\n\
K1 -127 0\n\
K2 4 127\n\
$INTERSTAGE2\n\
Length [s]: 5\n\
From Stage: 2\n\
To Stage: 1\n\
K2 -127 0\n\
K1 3 127\n\
$END\n";

/// Two groups, which are red in the one stage.
pub const DARK: &[u8] = b"$SIGNAL_GROUPS\nK1 1\nK2 2\n$STAGES\nS0\n$STARTING_STAGE\nS0\n$END\n";

/// The times of two groups.
pub const TIMES: &[u8] = b"group,min_green,red_amber,amber\nK1,10,1,3\nK2,8,1,3\n";

/// The intergreens of two groups.
pub const INTERGREENS: &[u8] = b"from,to,seconds\nK1,K2,5\nK2,K1,4\n";

/// Four arms of two groups each, a stage for each arm, and an interstage of six seconds from each to each other.
pub const FOUR_ARMS_PLAN: &[u8] = b"\
$SIGNAL_GROUPS\n\
K1 1\n\
K2 2\n\
K3 3\n\
K4 4\n\
K5 5\n\
K6 6\n\
K7 7\n\
K8 8\n\
$STAGES\n\
S1 K1 K2\n\
S2 K3 K4\n\
S3 K5 K6\n\
S4 K7 K8\n\
$STARTING_STAGE\n\
S1\n\
$INTERSTAGE1\n\
Length [s]: 6\n\
From Stage: 1\n\
To Stage: 2\n\
K1 -127 0\n\
K2 -127 0\n\
K3 4 127\n\
K4 4 127\n\
$INTERSTAGE2\n\
Length [s]: 6\n\
From Stage: 1\n\
To Stage: 3\n\
K1 -127 0\n\
K2 -127 0\n\
K5 4 127\n\
K6 4 127\n\
$INTERSTAGE3\n\
Length [s]: 6\n\
From Stage: 1\n\
To Stage: 4\n\
K1 -127 0\n\
K2 -127 0\n\
K7 4 127\n\
K8 4 127\n\
$INTERSTAGE4\n\
Length [s]: 6\n\
From Stage: 2\n\
To Stage: 1\n\
K3 -127 0\n\
K4 -127 0\n\
K1 4 127\n\
K2 4 127\n\
$INTERSTAGE5\n\
Length [s]: 6\n\
From Stage: 2\n\
To Stage: 3\n\
K3 -127 0\n\
K4 -127 0\n\
K5 4 127\n\
K6 4 127\n\
$INTERSTAGE6\n\
Length [s]: 6\n\
From Stage: 2\n\
To Stage: 4\n\
K3 -127 0\n\
K4 -127 0\n\
K7 4 127\n\
K8 4 127\n\
$INTERSTAGE7\n\
Length [s]: 6\n\
From Stage: 3\n\
To Stage: 1\n\
K5 -127 0\n\
K6 -127 0\n\
K1 4 127\n\
K2 4 127\n\
$INTERSTAGE8\n\
Length [s]: 6\n\
From Stage: 3\n\
To Stage: 2\n\
K5 -127 0\n\
K6 -127 0\n\
K3 4 127\n\
K4 4 127\n\
$INTERSTAGE9\n\
Length [s]: 6\n\
From Stage: 3\n\
To Stage: 4\n\
K5 -127 0\n\
K6 -127 0\n\
K7 4 127\n\
K8 4 127\n\
$INTERSTAGE10\n\
Length [s]: 6\n\
From Stage: 4\n\
To Stage: 1\n\
K7 -127 0\n\
K8 -127 0\n\
K1 4 127\n\
K2 4 127\n\
$INTERSTAGE11\n\
Length [s]: 6\n\
From Stage: 4\n\
To Stage: 2\n\
K7 -127 0\n\
K8 -127 0\n\
K3 4 127\n\
K4 4 127\n\
$INTERSTAGE12\n\
Length [s]: 6\n\
From Stage: 4\n\
To Stage: 3\n\
K7 -127 0\n\
K8 -127 0\n\
K5 4 127\n\
K6 4 127\n\
$END\n";

/// The times of the four arms.
pub const FOUR_ARMS_TIMES: &[u8] = b"\
group,min_green,red_amber,amber\n\
K1,5,1,3\n\
K2,5,1,3\n\
K3,5,1,3\n\
K4,5,1,3\n\
K5,5,1,3\n\
K6,5,1,3\n\
K7,5,1,3\n\
K8,5,1,3\n";

/// Five seconds between groups of different arms.
pub const FOUR_ARMS_INTERGREENS: &[u8] = b"\
from,to,seconds\n\
K1,K3,5\n\
K1,K4,5\n\
K1,K5,5\n\
K1,K6,5\n\
K1,K7,5\n\
K1,K8,5\n\
K2,K3,5\n\
K2,K4,5\n\
K2,K5,5\n\
K2,K6,5\n\
K2,K7,5\n\
K2,K8,5\n\
K3,K1,5\n\
K3,K2,5\n\
K3,K5,5\n\
K3,K6,5\n\
K3,K7,5\n\
K3,K8,5\n\
K4,K1,5\n\
K4,K2,5\n\
K4,K5,5\n\
K4,K6,5\n\
K4,K7,5\n\
K4,K8,5\n\
K5,K1,5\n\
K5,K2,5\n\
K5,K3,5\n\
K5,K4,5\n\
K5,K7,5\n\
K5,K8,5\n\
K6,K1,5\n\
K6,K2,5\n\
K6,K3,5\n\
K6,K4,5\n\
K6,K7,5\n\
K6,K8,5\n\
K7,K1,5\n\
K7,K2,5\n\
K7,K3,5\n\
K7,K4,5\n\
K7,K5,5\n\
K7,K6,5\n\
K8,K1,5\n\
K8,K2,5\n\
K8,K3,5\n\
K8,K4,5\n\
K8,K5,5\n\
K8,K6,5\n";
