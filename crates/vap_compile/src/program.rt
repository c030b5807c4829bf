// The code of a whole program.

ghost use Rattle.std.specs.Prelude.{◌≡◌, ◌+◌, ◌≤◌, [], ◌∷◌, length, map, IfOk, OnOk};
ghost use Rattle.vap_ast.specs.Sizes as sizes;
ghost use Rattle.vap_ast.specs.Tree.{array_of, items_of, program_of};
ghost use Rattle.vap_check.specs.Accepted.{bodies_size};
ghost use Rattle.vap_check.specs.Checked.{IsChecked};
ghost use Rattle.vap_check.specs.Names.{bodies};
ghost use Rattle.vap_check.specs.Passes.{first_store_of};
ghost use Rattle.vap_code.specs.Codes.{code_in};
ghost use Rattle.vap_code.specs.Stores.{first_store};
ghost use Rattle.vap_compile.specs.Layout.{Appends, bodies_in, routine_code, routines_code, routine_starts};
ghost use Rattle.vap_compile.specs.Compiled.{IsLaidOut, MeansProgram, HasNumbersOf};

use crate::statements::emit_routine;
use code_verify::{Verified, VerifyRefusal, valid_code_ends, verify};
use sig_types::Memory;
use std::alloc::{AllocError, Global};
use vap_ast::{ArrayDecl, Item, Routine};
use vap_check::Checked;
use vap_code::{Code, Instr};

// The instructions of routines, and the places at which they begin.
#[derive(Drop)]
struct Routines {
    instrs: Vec<Instr>,
    starts: Vec<u16>,
}

// Adds a routine behind the others.
fn add_routine(
    alloc: Global,
    checked: &Checked,
    routines: &mut Routines,
    body: &[Item],
) -> Result<(), AllocError>
    requires { length routines.old.instrs.items + sizes.items_size (items_of body.now) ≤ 65535 }
    ensures instrs { OnOk result (Appends routines.old.instrs.items routines.new.instrs.items
        (routine_code checked.now.names (length routines.old.instrs.items) (items_of body.now))) }
    ensures starts { OnOk result (Appends routines.old.starts.items routines.new.starts.items
        (length routines.old.instrs.items ∷ [])) }
{
    routines.starts.push(routines.instrs.len() as u16)?;
    emit_routine(alloc, checked, &mut routines.instrs, body)
}

// Adds subroutines in order behind the others.
fn add_routines(
    alloc: Global,
    checked: &Checked,
    routines: &mut Routines,
    subs: &[Routine],
) -> Result<(), AllocError>
    requires { length routines.old.instrs.items + bodies_size (bodies_in subs.now) ≤ 65535 }
    ensures instrs { OnOk result (Appends routines.old.instrs.items routines.new.instrs.items
        (routines_code checked.now.names (length routines.old.instrs.items) (bodies_in subs.now))) }
    ensures starts { OnOk result (Appends routines.old.starts.items routines.new.starts.items
        (routine_starts (length routines.old.instrs.items) (bodies_in subs.now))) }
{
    for sub in subs {
        add_routine(alloc, checked, routines, &sub.body.0)?;
    }
    Ok(())
}

// All routines of a program: the subroutines, and then the main routine.
fn routines_of(alloc: Global, checked: &Checked) -> Result<Routines, AllocError>
    ensures instrs { IfOk result (λ r. r.instrs.items
        ≡ routines_code checked.now.names 0 (bodies (program_of checked.now.tree))) }
    ensures starts { IfOk result (λ r. r.starts.items
        ≡ routine_starts 0 (bodies (program_of checked.now.tree))) }
{
    let mut routines = Routines {
        instrs: Vec::new(alloc),
        starts: Vec::new(alloc),
    };
    let program = checked.program();
    add_routines(alloc, checked, &mut routines, &program.subs)?;
    add_routine(alloc, checked, &mut routines, &program.main.body.0)?;
    Ok(routines)
}

// The declared values of arrays.
fn arrays_of(alloc: Global, decls: &[ArrayDecl]) -> Result<Vec<Vec<i32>>, AllocError>
    ensures { IfOk result (λ arrays. map (λ a. a.items) arrays.items
        ≡ map (λ a. a.values) (map array_of decls.now)) }
{
    let mut arrays = Vec::with_capacity(alloc, decls.len())?;
    for decl in decls {
        arrays.push(decl.values.to_vec(alloc)?)?;
    }
    Ok(arrays)
}

// The code of a checked program, before it is verified.
fn code_of(alloc: Global, checked: &Checked) -> Result<Code, AllocError>
    ensures code { IfOk result (λ code. IsLaidOut checked.now (code_in code)) }
    ensures kept { IsChecked checked.now }
{
    let vars = checked.variables();
    let timers = checked.timers();
    let routines = routines_of(alloc, checked)?;
    Ok(Code {
        instrs: routines.instrs,
        starts: routines.starts,
        vars,
        timers,
        arrays: arrays_of(alloc, &checked.program().arrays)?,
    })
}

/// The code of a checked program, laid out as `specs/Layout.antt` tells. For every world and every store that fits the
/// program, a pass of the code ends as the pass of the program does. The code has the program's numbers of variables and
/// timers, and its arrays hold the declared values, so a machine begins with the store with which the program begins. A
/// checked program always has valid code: it is verified and never refused, so `Memory` is the only error.
pub fn compile(alloc: Global, checked: &Checked) -> Result<Verified, Memory>
    ensures layout { IfOk result (λ code. IsLaidOut checked.now code) }
    ensures means { IfOk result (λ code. MeansProgram checked.now code) }
    ensures numbers { IfOk result (λ code. HasNumbersOf checked.now code) }
    ensures begins { IfOk result (λ code. first_store code ≡ first_store_of checked.now) }
{
    valid_code_ends();
    let Ok(code) = code_of(alloc, checked) else {
        return Err(Memory);
    };
    match verify(alloc, code) {
        Ok(verified) => Ok(verified),
        Err((_, VerifyRefusal::Memory)) => Err(Memory),
        Err((_, VerifyRefusal::At { .. })) => unreachable!(),
    }
}
