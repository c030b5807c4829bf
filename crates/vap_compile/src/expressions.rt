// The instructions of expressions.

ghost use Rattle.std.specs.Prelude.{◌≡◌, [], ◌∷◌, OnOk};
ghost use Rattle.vap_ast.specs.Names.{meaning_in};
ghost use Rattle.vap_ast.specs.Tree.{expr_of, exprs_of};
ghost use Rattle.vap_ast.specs.Value.{array_number as array_number_of};
ghost use Rattle.vap_compile.specs.Layout.{Appends, expr_code, exprs_code, binary_instr as instr_of_binary, unary_instr as instr_of_unary, name_instr as instr_of_name};

use std::alloc::AllocError;
use vap_ast::{BinaryOp, Expr, Meaning, Name, UnaryOp};
use vap_check::Checked;
use vap_code::Instr;

/// Puts one more instruction at the end.
pub fn put(code: &mut Vec<Instr>, instr: Instr) -> Result<(), AllocError>
    ensures { OnOk result (Appends code.old.items code.new.items (instr ∷ [])) }
{
    code.push(instr)?;
    Ok(())
}

fn binary_instr(op: BinaryOp) -> Instr
    ensures { result ≡ instr_of_binary op }
{
    match op {
        BinaryOp::Or => Instr::Or,
        BinaryOp::And => Instr::And,
        BinaryOp::Eq => Instr::Eq,
        BinaryOp::Ne => Instr::Ne,
        BinaryOp::Lt => Instr::Lt,
        BinaryOp::Le => Instr::Le,
        BinaryOp::Gt => Instr::Gt,
        BinaryOp::Ge => Instr::Ge,
        BinaryOp::Add => Instr::Add,
        BinaryOp::Sub => Instr::Sub,
        BinaryOp::Mul => Instr::Mul,
        BinaryOp::Div => Instr::Div,
    }
}

fn unary_instr(op: UnaryOp) -> Instr
    ensures { result ≡ instr_of_unary op }
{
    match op {
        UnaryOp::Neg => Instr::Neg,
        UnaryOp::Not => Instr::Not,
    }
}

// The instruction of a plain name: a constant's value, a timer's count or a variable. A checked program has no other
// name there.
fn name_instr(checked: &Checked, name: &Name) -> Instr
    ensures { result ≡ instr_of_name (meaning_in checked.now.names name.now) }
{
    match checked.meaning(name) {
        Some(Meaning::Constant(value)) => Instr::Push(value),
        Some(Meaning::Timer(timer)) => Instr::Timer(timer),
        Some(Meaning::Variable(variable)) => Instr::Load(variable),
        Some(Meaning::Array(_)) | Some(Meaning::Sub(_)) | None => Instr::Push(0),
    }
}

/// The number of an array of a checked program.
pub fn array_number(checked: &Checked, name: &Name) -> u16
    ensures { result ≡ array_number_of (meaning_in checked.now.names name.now) }
{
    match checked.meaning(name) {
        Some(Meaning::Array(array)) => array,
        Some(Meaning::Constant(_))
        | Some(Meaning::Sub(_))
        | Some(Meaning::Timer(_))
        | Some(Meaning::Variable(_))
        | None => 0,
    }
}

/// Puts the instructions of an expression, which leave its value.
#[cycle(emit_expr)]
pub fn emit_expr(checked: &Checked, code: &mut Vec<Instr>, e: &Expr) -> Result<(), AllocError>
    ensures { OnOk result (Appends code.old.items code.new.items
        (expr_code checked.now.names (expr_of e.now))) }
{
    match e {
        Expr::Literal(value) => put(code, Instr::Push(*value)),
        Expr::Name(name) => put(code, name_instr(checked, name)),
        Expr::Cell { array, index } => {
            emit_expr(checked, code, index)?;
            put(code, Instr::Cell(array_number(checked, array)))
        }
        Expr::Unary { op, arg } => {
            emit_expr(checked, code, arg)?;
            put(code, unary_instr(*op))
        }
        Expr::Binary { op, left, right } => {
            emit_expr(checked, code, left)?;
            emit_expr(checked, code, right)?;
            put(code, binary_instr(*op))
        }
        Expr::Read { kind, args } => {
            emit_exprs(checked, code, args)?;
            put(code, Instr::Read(*kind))
        }
    }
}

/// Puts the instructions of arguments, which leave their values in order.
#[cycle(emit_expr)]
pub fn emit_exprs(checked: &Checked, code: &mut Vec<Instr>, args: &[Expr]) -> Result<(), AllocError>
    ensures { OnOk result (Appends code.old.items code.new.items
        (exprs_code checked.now.names (exprs_of args.now))) }
{
    for arg in args {
        emit_expr(checked, code, arg)?;
    }
    Ok(())
}
