// What the records of a run add up to.
ghost use Rattle.std.specs.Prelude.{◌≡◌, ◌+◌, ◌-◌, ◌*◌, ◌^◌, ◌<◌, ◌≤◌, ◌++◌, ◌∷◌, [], ℕ, List, Option, cond, count_by, length, slice_index};
ghost use Rattle.sig_io.specs.Draft.{FailsOnly, Puts};
ghost use Rattle.sig_types.specs.declared.aspect.Rule.{Rule};
ghost use Rattle.sig_types.specs.declared.kinds.FaultKind.{FaultKind};
ghost use Rattle.sig_types.specs.declared.record.Record.{Record};
ghost use Rattle.sig_types.specs.RuleNumbers.{rule_number, fault_number};
ghost use Rattle.sig_types.specs.Turns.{shown};
ghost use Rattle.pua_model.specs.Plan.{groups_in};
ghost use Rattle.signal_log.specs.Summary.{StandsFor, turned, is_rule, is_fault, kept_greens, kept_refusals, kept_faults, tally, groups_text, rules_text, kinds_text, summary_text};

use crate::words::{fault_name, rule_name};
use pua_model::Plan;
use sig_io::{Draft, Sink};
use sig_types::{
    Aspect, Fault, FaultKind, GroupNo, Picture, Record, Rule, StageRefusals, TurnRefusals,
};

const RULES: [Rule; 8] = [
    Rule::Sequence,
    Rule::MinGreen,
    Rule::MinRed,
    Rule::Conflict,
    Rule::Intergreen,
    Rule::Running,
    Rule::WrongStage,
    Rule::NoInterstage,
];

const KINDS: [FaultKind; 5] = [
    FaultKind::Budget,
    FaultKind::Overflow,
    FaultKind::ZeroDivisor,
    FaultKind::Index,
    FaultKind::Number,
];

/// What the records so far add up to: the last picture, in how many seconds each group turned green, how many refusals there
/// were by each rule, and in how many seconds there was a fault of each kind.
#[derive(Drop)]
pub struct Summary {
    last: Picture,
    greens: [u32; 64],
    refused: [u64; 8],
    faults: [u32; 5],
}

// Adds one for each group that is green now and was not before.
fn add_greens(greens: &mut [u32; 64], last: &Picture, picture: &Picture)
    requires groups { length last.now ≡ length picture.now }
    requires room { (g : ℕ) → g < length picture.now → slice_index greens.old g < 2 ^ 31 }
    ensures { (g : ℕ) → g < length picture.now →
        slice_index greens.new g ≡ slice_index greens.old g + cond (turned (shown last.now g) (shown picture.now g)) 1 0 }
{
    for g in 0..picture.len() {
        if picture.get(g) == Aspect::Green && last.get(g) != Aspect::Green {
            greens[usize::from(g)] += 1;
        }
    }
}

// Adds one to a rule.
fn add_refusal(refused: &mut [u64; 8], rule: Rule)
    requires { slice_index refused.old (rule_number rule - 1) < 2 ^ 63 }
    ensures { (other : Rule) → slice_index refused.new (rule_number other - 1)
        ≡ slice_index refused.old (rule_number other - 1) + cond (is_rule other rule) 1 0 }
{
    refused[usize::from(rule.number()) - 1] += 1;
}

// Adds the refused stage commands of a second.
fn add_stages(refused: &mut [u64; 8], stages: &StageRefusals)
    requires { (rule : Rule) → slice_index refused.old (rule_number rule - 1) < 2 ^ 61 }
    ensures more { (rule : Rule) → slice_index refused.new (rule_number rule - 1)
        ≡ slice_index refused.old (rule_number rule - 1) + count_by (λ s. is_rule rule s.rule) stages.now }
    ensures few { length stages.now ≤ 10000 }
{
    for i in 0..stages.len() {
        add_refusal(refused, stages.get(i).rule);
    }
}

// Adds the refused turns of a second.
fn add_turns(refused: &mut [u64; 8], turns: &TurnRefusals)
    requires { (rule : Rule) → slice_index refused.old (rule_number rule - 1) < 2 ^ 62 }
    ensures more { (rule : Rule) → slice_index refused.new (rule_number rule - 1)
        ≡ slice_index refused.old (rule_number rule - 1) + count_by (λ t. is_rule rule t.rule) turns.now }
    ensures few { length turns.now ≤ 64 }
{
    for i in 0..turns.len() {
        add_refusal(refused, turns.get(i).rule);
    }
}

// Adds one to the kind of a fault.
fn add_fault(faults: &mut [u32; 5], fault: Option<Fault>)
    requires { (kind : FaultKind) → slice_index faults.old (fault_number kind - 1) < 2 ^ 31 }
    ensures { (kind : FaultKind) → slice_index faults.new (fault_number kind - 1)
        ≡ slice_index faults.old (fault_number kind - 1) + cond (is_fault kind fault) 1 0 }
{
    match fault {
        None => {}
        Some(fault) => faults[usize::from(fault.kind.number()) - 1] += 1,
    }
}

impl Summary {
    ghost use Rattle.signal_log.specs.Summary.{StandsFor};

    /// The summary of no record, for a site of so many groups.
    #[tactic(auto, unfolding(crate::specs::Summary::StandsFor))]
    pub fn new(groups: u8) -> Summary
        requires { groups ≤ 64 }
        ensures { StandsFor result groups [] }
    {
        Summary {
            last: Picture::all_red(groups),
            greens: [0; 64],
            refused: [0; 8],
            faults: [0; 5],
        }
    }

    /// Adds the record of the next second, one of at most 604,801. It takes no memory.
    #[tactic(auto, unfolding(crate::specs::Summary::StandsFor))]
    pub fn add(&mut self, rec: &Record)
        requires { (groups : ℕ) × (rs : List Record) × StandsFor self.old groups rs × (length rec.now.picture ≡ groups)
            × (length rs < 604801) }
        ensures { (groups : ℕ) (rs : List Record) → StandsFor self.old groups rs → length rec.now.picture ≡ groups →
            StandsFor self.new groups (rs ++ rec.now ∷ []) }
    {
        add_greens(&mut self.greens, &self.last, &rec.picture);
        add_stages(&mut self.refused, &rec.stages);
        add_turns(&mut self.refused, &rec.turns);
        add_fault(&mut self.faults, rec.fault);
        self.last = rec.picture.copy();
    }

    // In how many seconds the group turned green.
    fn greens_of(&self, g: GroupNo) -> u32
        requires { g.0 < 64 }
        ensures { result ≡ kept_greens self.now g.0 }
    {
        self.greens[usize::from(g.0)]
    }

    // How many refusals there were by the rule.
    fn refusals_by(&self, rule: Rule) -> u64
        ensures { result ≡ kept_refusals self.now rule }
    {
        self.refused[usize::from(rule.number()) - 1]
    }

    // In how many seconds there was a fault of the kind.
    fn faults_of(&self, kind: FaultKind) -> u32
        ensures { result ≡ kept_faults self.now kind }
    {
        self.faults[usize::from(kind.number()) - 1]
    }
}

// Puts a name after a space, and its count.
fn put_tally<O: Sink>(draft: &mut Draft, sink: &mut O, name: &[u8], n: u64)
    requires { length name.now ≤ 4096 }
    ensures { Puts O.taken O.faults draft.old draft.new sink.old sink.new (tally name.now n) }
{
    draft.put(sink, b" ");
    draft.put(sink, name);
    draft.put(sink, b":");
    draft.put_long_number(sink, n);
}

// Puts the groups with their counts.
fn put_groups<O: Sink>(draft: &mut Draft, sink: &mut O, plan: &Plan, summary: &Summary)
    ensures { Puts O.taken O.faults draft.old draft.new sink.old sink.new
        (groups_text (kept_greens summary.now) 0 plan.now.names) }
{
    for g in 0..plan.groups() {
        let group = GroupNo(g);
        let count = u64::from(summary.greens_of(group));
        put_tally(draft, sink, plan.group_name(group).as_bytes(), count);
    }
}

// Puts the rules with their counts.
fn put_rules<O: Sink>(draft: &mut Draft, sink: &mut O, summary: &Summary)
    ensures { Puts O.taken O.faults draft.old draft.new sink.old sink.new (rules_text (kept_refusals summary.now)) }
{
    for rule in RULES {
        let count = summary.refusals_by(rule);
        put_tally(draft, sink, rule_name(rule), count);
    }
}

// Puts the kinds of faults with their counts.
fn put_kinds<O: Sink>(draft: &mut Draft, sink: &mut O, summary: &Summary)
    ensures { Puts O.taken O.faults draft.old draft.new sink.old sink.new (kinds_text (kept_faults summary.now)) }
{
    for kind in KINDS {
        let count = u64::from(summary.faults_of(kind));
        put_tally(draft, sink, fault_name(kind), count);
    }
}

/// Puts the text of a summary at the end of a draft, in four lines: `SAMPLE` with the seed and the number of seconds; `GREENS`
/// with each group's number of seconds in which it turned green; `REFUSED` with the number of refusals by each rule; and
/// `FAULTS` with the number of seconds with a fault of each kind.
///
/// The summary is one of records of the plan's site. No memory is taken.
#[tactic(auto, unfolding(crate::specs::Summary::StandsFor, crate::specs::Summary::summary_text))]
pub fn put_summary<O: Sink>(
    summary: &Summary,
    plan: &Plan,
    seed: u64,
    seconds: u32,
    draft: &mut Draft,
    sink: &mut O,
)
    ensures puts { (rs : List Record) → StandsFor summary.now (groups_in plan.now) rs →
        Puts O.taken O.faults draft.old draft.new sink.old sink.new (summary_text plan.now.names seed seconds rs) }
    ensures cause { FailsOnly (O.faults sink.old) (O.faults sink.new) draft.old.failed draft.new.failed }
{
    draft.put(sink, b"SAMPLE ");
    draft.put_long_number(sink, seed);
    draft.put(sink, b" ");
    draft.put_number(sink, seconds);
    draft.put(sink, b"\nGREENS");
    put_groups(draft, sink, plan, summary);
    draft.put(sink, b"\nREFUSED");
    put_rules(draft, sink, summary);
    draft.put(sink, b"\nFAULTS");
    put_kinds(draft, sink, summary);
    draft.put(sink, b"\n");
}
