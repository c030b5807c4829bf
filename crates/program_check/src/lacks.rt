// Warnings of names that lack a use: of variables, timers and labels by how they are used, of what is declared by its name.
ghost use Rattle.std.specs.Prelude.{◌≡◌, ◌∷◌, [], ◌++◌, filter, flat_map, map, OnOk};
ghost use Rattle.std.specs.Str.{bytes_eq};
ghost use Rattle.vap_ast.specs.Tree.{array_of, constant_of, program_of, routine_of};
ghost use Rattle.program_check.specs.Firsts.{firsts, unless_seen, with_key};
ghost use Rattle.program_check.specs.Lacks as lacks;
ghost use Rattle.program_check.specs.Lacks.{lacking, lacking_use, unused};

use crate::named::{named, note_name};
use crate::uses::{NameUse, Sort, Use, uses_lacking};
use crate::warnings::{Meant, ProgramWarning, Warned, warn};
use indexmap::IndexSet;
use std::alloc::{AllocError, Global};
use vap_ast::{ArrayDecl, ConstDecl, Name, Program, Routine};
use vap_check::Checked;

/// What a name lacks.
#[derive(Clone, Copy, PartialEq, Eq)]
pub enum Lack {
    /// A variable that is read and never assigned.
    Unassigned,
    /// A variable that is assigned and never read.
    Unread,
    /// A timer that is read and never started.
    Unstarted,
    /// A timer that is started and never read.
    UnreadTimer,
    /// A label that no jump goes to.
    UnusedLabel,
    /// A constant that nothing reads.
    UnusedConstant,
    /// An array of which no cell is read.
    UnreadArray,
    /// A subroutine that is never called.
    UncalledSub,
}

// What the names have, by their uses, which lack another use.
#[derive(Clone, Copy)]
struct Wanting {
    has: Use,
    sort: Sort,
    lacks: Use,
    lack: Lack,
}

// Warns of a name, unless it was seen before.
fn warn_of_use(
    alloc: Global,
    lack: Lack,
    site: &NameUse,
    seen: &mut IndexSet<Name>,
    warned: &mut Vec<Warned>,
) -> Result<(), AllocError>
    ensures seen { OnOk result (seen.new.keys ≡ with_key bytes_eq (λ r. r.name) seen.old.keys site.now) }
    ensures told { OnOk result (warned.new.items ≡ warned.old.items
        ++ map (lacking_use lack) (unless_seen bytes_eq (λ r. r.name) seen.old.keys site.now)) }
{
    if seen.contains(&site.name) {
        return Ok(());
    }
    note_name(alloc, seen, &site.name)?;
    match site.name.copy(alloc) {
        Ok(name) => warn(
            warned,
            site.line,
            Meant::Name,
            ProgramWarning::Lacking(lack, name),
        ),
        Err(_) => Err(AllocError),
    }
}

// Warns of each name once.
fn warn_of_uses(
    alloc: Global,
    lack: Lack,
    sites: &[NameUse],
    warned: &mut Vec<Warned>,
) -> Result<(), AllocError>
    ensures { OnOk result
        (warned.new.items ≡ warned.old.items ++ map (lacking_use lack) (firsts bytes_eq (λ r. r.name) sites.now)) }
{
    let mut seen = IndexSet::new(alloc);
    for site in sites {
        warn_of_use(alloc, lack, site, &mut seen, warned)?;
    }
    Ok(())
}

// Warns of the names of a sort that have a use and lack another one, of each at its first use.
#[tactic(auto, unfolding(crate::specs::Lacks::lacking))]
fn warn_of_lacking(
    alloc: Global,
    checked: &Checked,
    wanting: Wanting,
    warned: &mut Vec<Warned>,
) -> Result<(), AllocError>
    ensures { OnOk result (warned.new.items ≡ warned.old.items
        ++ lacking checked.now wanting.has wanting.sort wanting.lacks wanting.lack) }
{
    let others = named(alloc, checked.program(), wanting.lacks)?;
    let sites = uses_lacking(alloc, checked, wanting.has, wanting.sort, &others)?;
    warn_of_uses(alloc, wanting.lack, &sites, warned)
}

/// Warns of the variables that are read and never assigned, of each at its first reading.
pub fn warn_of_unassigned(
    alloc: Global,
    checked: &Checked,
    warned: &mut Vec<Warned>,
) -> Result<(), AllocError>
    ensures { OnOk result (warned.new.items ≡ warned.old.items ++ lacks.unassigned checked.now) }
{
    let wanting = Wanting {
        has: Use::Read,
        sort: Sort::Variable,
        lacks: Use::Assigned,
        lack: Lack::Unassigned,
    };
    warn_of_lacking(alloc, checked, wanting, warned)
}

// Warns of the variables that are assigned and never read, of each at its first assignment.
fn warn_of_unread(
    alloc: Global,
    checked: &Checked,
    warned: &mut Vec<Warned>,
) -> Result<(), AllocError>
    ensures { OnOk result (warned.new.items ≡ warned.old.items ++ lacks.unread checked.now) }
{
    let wanting = Wanting {
        has: Use::Assigned,
        sort: Sort::Variable,
        lacks: Use::Read,
        lack: Lack::Unread,
    };
    warn_of_lacking(alloc, checked, wanting, warned)
}

// Warns of the timers that are read and never started, of each at its first reading.
fn warn_of_unstarted(
    alloc: Global,
    checked: &Checked,
    warned: &mut Vec<Warned>,
) -> Result<(), AllocError>
    ensures { OnOk result (warned.new.items ≡ warned.old.items ++ lacks.unstarted checked.now) }
{
    let wanting = Wanting {
        has: Use::Read,
        sort: Sort::Timer,
        lacks: Use::Started,
        lack: Lack::Unstarted,
    };
    warn_of_lacking(alloc, checked, wanting, warned)
}

// Warns of the timers that are started and never read, of each at its first start.
fn warn_of_unread_timers(
    alloc: Global,
    checked: &Checked,
    warned: &mut Vec<Warned>,
) -> Result<(), AllocError>
    ensures { OnOk result (warned.new.items ≡ warned.old.items ++ lacks.unread_timers checked.now) }
{
    let wanting = Wanting {
        has: Use::Started,
        sort: Sort::Timer,
        lacks: Use::Read,
        lack: Lack::UnreadTimer,
    };
    warn_of_lacking(alloc, checked, wanting, warned)
}

// Warns of the labels that no jump goes to, of each where it stands first.
fn warn_of_labels(
    alloc: Global,
    checked: &Checked,
    warned: &mut Vec<Warned>,
) -> Result<(), AllocError>
    ensures { OnOk result (warned.new.items ≡ warned.old.items ++ lacks.unused_labels checked.now) }
{
    let wanting = Wanting {
        has: Use::Label,
        sort: Sort::Any,
        lacks: Use::Jumped,
        lack: Lack::UnusedLabel,
    };
    warn_of_lacking(alloc, checked, wanting, warned)
}

// Warns of a declared name, unless it is among those that are used.
fn warn_of_declared(
    alloc: Global,
    lack: Lack,
    used: &IndexSet<Name>,
    line: u32,
    name: &Name,
    warned: &mut Vec<Warned>,
) -> Result<(), AllocError>
    ensures { OnOk result (warned.new.items ≡ warned.old.items
        ++ unused lack used.now.keys (record { line = line; name = name.now } ∷ [])) }
{
    if used.contains(name) {
        return Ok(());
    }
    match name.copy(alloc) {
        Ok(name) => warn(
            warned,
            line,
            Meant::Name,
            ProgramWarning::Lacking(lack, name),
        ),
        Err(_) => Err(AllocError),
    }
}

// Warns of the constants that are none of these names.
fn warn_of_constants(
    alloc: Global,
    used: &IndexSet<Name>,
    consts: &[ConstDecl],
    warned: &mut Vec<Warned>,
) -> Result<(), AllocError>
    ensures { OnOk result (warned.new.items ≡ warned.old.items
        ++ unused Lack.UnusedConstant used.now.keys (map lacks.constant_named (map constant_of consts.now))) }
{
    for decl in consts {
        warn_of_declared(
            alloc,
            Lack::UnusedConstant,
            used,
            decl.line,
            &decl.name,
            warned,
        )?;
    }
    Ok(())
}

// Warns of the arrays that are none of these names.
fn warn_of_arrays(
    alloc: Global,
    used: &IndexSet<Name>,
    arrays: &[ArrayDecl],
    warned: &mut Vec<Warned>,
) -> Result<(), AllocError>
    ensures { OnOk result (warned.new.items ≡ warned.old.items
        ++ unused Lack.UnreadArray used.now.keys (map lacks.array_named (map array_of arrays.now))) }
{
    for decl in arrays {
        warn_of_declared(
            alloc,
            Lack::UnreadArray,
            used,
            decl.line,
            &decl.name,
            warned,
        )?;
    }
    Ok(())
}

// Warns of the subroutines that are none of these names.
fn warn_of_subs(
    alloc: Global,
    used: &IndexSet<Name>,
    subs: &[Routine],
    warned: &mut Vec<Warned>,
) -> Result<(), AllocError>
    ensures { OnOk result (warned.new.items ≡ warned.old.items
        ++ unused Lack.UncalledSub used.now.keys (map lacks.sub_named (map routine_of subs.now))) }
{
    for sub in subs {
        warn_of_declared(alloc, Lack::UncalledSub, used, sub.line, &sub.name, warned)?;
    }
    Ok(())
}

// Warns of the constants that are never read.
#[tactic(auto, unfolding(crate::specs::Lacks::unused_constants))]
fn warn_of_unused_constants(
    alloc: Global,
    program: &Program,
    warned: &mut Vec<Warned>,
) -> Result<(), AllocError>
    ensures { OnOk result (warned.new.items ≡ warned.old.items ++ lacks.unused_constants (program_of program.now)) }
{
    let read = named(alloc, program, Use::Read)?;
    warn_of_constants(alloc, &read, &program.consts, warned)
}

// Warns of the arrays of which no cell is read.
#[tactic(auto, unfolding(crate::specs::Lacks::unread_arrays))]
fn warn_of_unread_arrays(
    alloc: Global,
    program: &Program,
    warned: &mut Vec<Warned>,
) -> Result<(), AllocError>
    ensures { OnOk result (warned.new.items ≡ warned.old.items ++ lacks.unread_arrays (program_of program.now)) }
{
    let cells = named(alloc, program, Use::Cell)?;
    warn_of_arrays(alloc, &cells, &program.arrays, warned)
}

// Warns of the subroutines that are never called.
#[tactic(auto, unfolding(crate::specs::Lacks::uncalled_subs))]
fn warn_of_uncalled_subs(
    alloc: Global,
    program: &Program,
    warned: &mut Vec<Warned>,
) -> Result<(), AllocError>
    ensures { OnOk result (warned.new.items ≡ warned.old.items ++ lacks.uncalled_subs (program_of program.now)) }
{
    let called = named(alloc, program, Use::Called)?;
    warn_of_subs(alloc, &called, &program.subs, warned)
}

// Warns of what a program declares and never uses: constants, arrays and subroutines.
fn warn_of_declarations(
    alloc: Global,
    program: &Program,
    warned: &mut Vec<Warned>,
) -> Result<(), AllocError>
    ensures { OnOk result (warned.new.items ≡ warned.old.items ++ lacks.unused_declared (program_of program.now)) }
{
    warn_of_unused_constants(alloc, program, warned)?;
    warn_of_unread_arrays(alloc, program, warned)?;
    warn_of_uncalled_subs(alloc, program, warned)
}

/// Warns of what a program declares, assigns or starts and never uses, and of timers that it never starts.
pub fn warn_of_unused(
    alloc: Global,
    checked: &Checked,
    warned: &mut Vec<Warned>,
) -> Result<(), AllocError>
    ensures { OnOk result (warned.new.items ≡ warned.old.items ++ lacks.all_unused checked.now) }
{
    warn_of_unread(alloc, checked, warned)?;
    warn_of_unstarted(alloc, checked, warned)?;
    warn_of_unread_timers(alloc, checked, warned)?;
    warn_of_labels(alloc, checked, warned)?;
    warn_of_declarations(alloc, checked.program(), warned)
}
