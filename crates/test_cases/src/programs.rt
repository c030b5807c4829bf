// Programs.

/// A program without a statement.
pub const EMPTY: &[u8] = b"PROGRAM e;\nPROG_ENDE: .\n";

/// A timer that two fronts start.
pub const TIMER: &[u8] = b"\
PROGRAM t;\n\
IF Front_ends(1) >= 2 THEN Start(w); Clear_front_ends(1); END;\n\
IF w = 3 THEN Interstage(2, 1); Stop(w); Reset(w); END;\n\
PROG_ENDE: .\n";

/// Each arm is green for 10 to 30 seconds, as long as vehicles come.
pub const FOUR_ARMS: &[u8] = b"\
PROGRAM j;\n\
VAP_FREQUENCY 1;\n\
CONST most = 30, least = 10, gap = 3;\n\
IF NOT Any_interstage_active THEN\n\
\x20 IF Stage_active(1) AND Stage_duration(1) >= least THEN\n\
\x20   IF Headway(1) > gap AND Headway(2) > gap AND Headway(3) > gap OR Stage_duration(1) >= most THEN\n\
\x20     Interstage(1, 2)\n\
\x20   END\n\
\x20 END;\n\
\x20 IF Stage_active(2) AND Stage_duration(2) >= least THEN\n\
\x20   IF Headway(4) > gap AND Headway(5) > gap AND Headway(6) > gap OR Stage_duration(2) >= most THEN\n\
\x20     Interstage(2, 3)\n\
\x20   END\n\
\x20 END;\n\
\x20 IF Stage_active(3) AND Stage_duration(3) >= least THEN\n\
\x20   IF Headway(7) > gap AND Headway(8) > gap AND Headway(9) > gap OR Stage_duration(3) >= most THEN\n\
\x20     Interstage(3, 4)\n\
\x20   END\n\
\x20 END;\n\
\x20 IF Stage_active(4) AND Stage_duration(4) >= least THEN\n\
\x20   IF Headway(10) > gap AND Headway(11) > gap AND Headway(12) > gap OR Stage_duration(4) >= most THEN\n\
\x20     Interstage(4, 1)\n\
\x20   END\n\
\x20 END;\n\
END;\n\
PROG_ENDE: .\n";
