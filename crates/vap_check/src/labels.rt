// The labels of a routine, of which each stands once.
ghost use Rattle.std.specs.Prelude.{◌≡◌, OnOk, map};
ghost use Rattle.vap_ast.specs.Tree.{stmt_of, item_of, items_of};
ghost use Rattle.vap_check.specs.FirstFinding.{first_of_all, when};
ghost use Rattle.vap_check.specs.Names.{among, with_name, with_names, stmt_labels as labels_of_stmt, item_labels as labels_of_item, items_labels as labels_of_items};
ghost use Rattle.vap_check.specs.Findings.{label_findings};

use crate::finding::{Finding, note_finding_if};
use crate::refusal::CheckWhy;
use crate::sets::note;
use sig_types::Memory;
use std::alloc::Global;
use std::collections::BTreeSet;
use vap_ast::{Item, Name, Stmt};

/// Adds a name to `before`. If the name is there already, `first` becomes the earlier of itself and a finding for `why`.
pub fn declare(
    alloc: Global,
    before: &mut BTreeSet<Name>,
    name: &Name,
    line: u32,
    why: CheckWhy,
    first: &mut Option<Finding>,
) -> Result<(), Memory>
    ensures names { OnOk result (among before.new.keys ≡ among (with_name before.old.keys name.now)) }
    ensures found { OnOk result (first.new ≡ first_of_all first.old (when (among before.old.keys name.now) line why)) }
{
    let was_there = note(alloc, before, name)?;
    note_finding_if(first, was_there, line, why);
    Ok(())
}

// Adds the labels of an item to `names`; `first` becomes the earlier of itself and the first label that is there already.
#[cycle(labels)]
#[tactic(auto, using(crate::proofs::Labelling::labels_on, crate::proofs::Labelling::names_of_both))]
fn note_item_labels(
    alloc: Global,
    item: &Item,
    names: &mut BTreeSet<Name>,
    first: &mut Option<Finding>,
) -> Result<(), Memory>
    ensures names { OnOk result
        (among names.new.keys ≡ among (with_names names.old.keys (map (λ l. l.name) (labels_of_item (item_of item.now))))) }
    ensures found { OnOk result
        (first.new ≡ first_of_all first.old (label_findings names.old.keys (labels_of_item (item_of item.now)))) }
{
    match item {
        Item::Label { name, line } => declare(
            alloc,
            names,
            name,
            *line,
            CheckWhy::LabelTwice,
            first,
        ),
        Item::Step { what, .. } => note_stmt_labels(alloc, what, names, first),
    }
}

#[cycle(labels)]
#[tactic(auto, using(crate::proofs::Labelling::labels_on, crate::proofs::Labelling::names_of_both))]
fn note_stmt_labels(
    alloc: Global,
    what: &Stmt,
    names: &mut BTreeSet<Name>,
    first: &mut Option<Finding>,
) -> Result<(), Memory>
    ensures names { OnOk result
        (among names.new.keys ≡ among (with_names names.old.keys (map (λ l. l.name) (labels_of_stmt (stmt_of what.now))))) }
    ensures found { OnOk result
        (first.new ≡ first_of_all first.old (label_findings names.old.keys (labels_of_stmt (stmt_of what.now)))) }
{
    match what {
        Stmt::If { yes, no, .. } => {
            note_items_labels(alloc, &yes.0, names, first)?;
            note_items_labels(alloc, &no.0, names, first)?;
            Ok(())
        }
        Stmt::Assign { .. }
        | Stmt::Cell { .. }
        | Stmt::Goto { .. }
        | Stmt::Gosub { .. }
        | Stmt::Do { .. }
        | Stmt::Timer { .. }
        | Stmt::Trace => Ok(()),
    }
}

/// Adds the labels of items to `names`; `first` becomes the earlier of itself and the first label that is there already.
#[cycle(labels)]
#[tactic(auto, using(crate::proofs::Labelling::labels_on, crate::proofs::Labelling::names_of_both))]
pub fn note_items_labels(
    alloc: Global,
    items: &[Item],
    names: &mut BTreeSet<Name>,
    first: &mut Option<Finding>,
) -> Result<(), Memory>
    ensures names { OnOk result
        (among names.new.keys ≡ among (with_names names.old.keys (map (λ l. l.name) (labels_of_items (items_of items.now))))) }
    ensures found { OnOk result
        (first.new ≡ first_of_all first.old (label_findings names.old.keys (labels_of_items (items_of items.now)))) }
{
    for item in items {
        note_item_labels(alloc, item, names, first)?;
    }
    Ok(())
}
