// What is wrong with declarations and routines, and the first of all findings of a program.
ghost use Rattle.std.specs.Prelude.{◌≡◌, [], None, OnOk, map};
ghost use Rattle.vap_ast.specs.Tree.{body_of, array_of, routine_of, program_of};
ghost use Rattle.vap_check.specs.FirstFinding.{first_of_all};
ghost use Rattle.vap_check.specs.Names.{among, with_names};
ghost use Rattle.vap_check.specs.Findings as wrong;
ghost use Rattle.vap_check.specs.KeptNames.{Knows, kind_in, line_in, taken_in};

use crate::finding::{Finding, note_finding, note_finding_if};
use crate::kinds::Declared;
use crate::known::Known;
use crate::labels::{declare, note_items_labels};
use crate::refusal::CheckWhy;
use crate::sets::{has, note};
use crate::uses::{Scope, judge_items};
use sig_types::Memory;
use sig_types::limits::MOST_ARRAY_CELLS;
use std::alloc::Global;
use std::collections::BTreeSet;
use vap_ast::{ArrayDecl, Items, Name, Program, Routine};

// The line of the first constant of a name.
fn const_line(known: &Known, name: &Name) -> Option<u32>
    ensures { result ≡ line_in known.now name.now }
{
    match known.get(name) {
        Some(Declared::Constant(first)) => Some(first.line),
        Some(Declared::Array | Declared::Sub | Declared::Timer) | None => None,
    }
}

// `first` becomes the earlier of itself and the clash of an array with a constant of its name, if there is one.
fn judge_clash(known: &Known, name: &Name, line: u32, first: &mut Option<Finding>)
    ensures { first.new ≡ first_of_all first.old (wrong.clash_findings (line_in known.now name.now) line) }
{
    if let Some(other) = const_line(known, name) {
        note_finding(first, line.max(other), CheckWhy::NameKind);
    }
}

// Whether an array has another size than 1 to the most cells of an array, or than the number of its values.
fn is_odd_size(size: i32, values: &[i32]) -> bool
    ensures { result ≡ wrong.is_odd_size size values.now }
{
    !(0 < size && size <= i32::from(MOST_ARRAY_CELLS) && size as usize == values.len())
}

#[tactic(auto, using(crate::proofs::Flat::findings_on))]
fn judge_arrays(
    alloc: Global,
    known: &Known,
    decls: &[ArrayDecl],
    first: &mut Option<Finding>,
) -> Result<(), Memory>
    ensures { OnOk result
        (first.new ≡ first_of_all first.old (wrong.array_findings (line_in known.now) [] (map array_of decls.now))) }
{
    let mut before = BTreeSet::new(alloc);
    for decl in decls {
        declare(
            alloc,
            &mut before,
            &decl.name,
            decl.line,
            CheckWhy::NameKind,
            first,
        )?;
        judge_clash(known, &decl.name, decl.line, first);
        note_finding_if(
            first,
            is_odd_size(decl.size, &decl.values),
            decl.line,
            CheckWhy::ArraySize,
        );
    }
    Ok(())
}

// `first` becomes the earlier of itself and the first finding of a body in which the subroutines `above` may be called.
#[tactic(auto, using(crate::proofs::Flat::findings_on))]
fn judge_body(
    alloc: Global,
    known: &Known,
    above: &BTreeSet<Name>,
    body: &Items,
    first: &mut Option<Finding>,
) -> Result<(), Memory>
    ensures { OnOk result
        (first.new ≡ first_of_all first.old (wrong.body_findings (kind_in known.now) above.now.keys (body_of body.now))) }
{
    let mut labels = BTreeSet::new(alloc);
    note_items_labels(alloc, &body.0, &mut labels, first)?;
    let scope = Scope {
        known,
        above,
        labels: &labels,
    };
    judge_items(&scope, &body.0, first);
    Ok(())
}

// Whether a name is that of a constant or an array.
fn is_taken(known: &Known, name: &Name) -> bool
    ensures { result ≡ taken_in known.now name.now }
{
    match known.get(name) {
        Some(Declared::Constant(_) | Declared::Array) => true,
        Some(Declared::Sub | Declared::Timer) | None => false,
    }
}

// `first` becomes the earlier of itself and the first finding of subroutines. Each may call those in `above`, and is then
// added to `above` itself.
#[tactic(auto, using(crate::proofs::Flat::findings_on))]
fn judge_subs(
    alloc: Global,
    known: &Known,
    above: &mut BTreeSet<Name>,
    subs: &[Routine],
    first: &mut Option<Finding>,
) -> Result<(), Memory>
    ensures above { OnOk result
        (among above.new.keys ≡ among (with_names above.old.keys (map (λ r. r.name) (map routine_of subs.now)))) }
    ensures found { OnOk result (first.new ≡ first_of_all first.old
        (wrong.subs_findings (kind_in known.now) (taken_in known.now) above.old.keys (map routine_of subs.now))) }
{
    for sub in subs {
        note_finding_if(first, has(above, &sub.name), sub.line, CheckWhy::SubTwice);
        note_finding_if(
            first,
            is_taken(known, &sub.name),
            sub.line,
            CheckWhy::NameKind,
        );
        judge_body(alloc, known, above, &sub.body, first)?;
        note(alloc, above, &sub.name)?;
    }
    Ok(())
}

/// `first` becomes the earlier of itself and the first of what else than constants is wrong with a program, but for limits.
#[tactic(auto, using(crate::proofs::Flat::findings_on))]
pub fn judge_program(
    alloc: Global,
    known: &Known,
    program: &Program,
    first: &mut Option<Finding>,
) -> Result<(), Memory>
    requires knows { Knows known.now (program_of program.now) }
    requires consts { first.old ≡ first_of_all None (wrong.const_findings [] (program_of program.now).consts) }
    ensures { OnOk result (first.new ≡ first_of_all None (wrong.findings (program_of program.now))) }
{
    judge_arrays(alloc, known, &program.arrays, first)?;
    let mut above = BTreeSet::new(alloc);
    judge_subs(alloc, known, &mut above, &program.subs, first)?;
    judge_body(alloc, known, &above, &program.main.body, first)?;
    Ok(())
}
