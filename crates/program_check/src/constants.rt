// The answers of expressions that are the same in every pass.
ghost use Rattle.std.specs.Prelude.{◌≡◌};
ghost use Rattle.sig_types.specs.Number as number;
ghost use Rattle.vap_ast.specs.Tree.{expr_of};
ghost use Rattle.vap_ast.specs.Value.{binary, unary};
ghost use Rattle.program_check.specs.Constants as constants;
ghost use Rattle.program_check.specs.Constants.{value_in};

use sig_types::{FaultKind, truth};
use vap_ast::{BinaryOp, Expr, Meaning, UnaryOp};
use vap_check::Checked;

/// The value of a name that is a constant.
pub fn constant_value(meaning: Option<Meaning>) -> Option<i32>
    ensures { result ≡ constants.constant_value meaning }
{
    match meaning {
        Some(Meaning::Constant(value)) => Some(value),
        Some(Meaning::Variable(_))
        | Some(Meaning::Array(_))
        | Some(Meaning::Sub(_))
        | Some(Meaning::Timer(_))
        | None => None,
    }
}

fn holds(value: i32) -> bool
    ensures { result ≡ number.holds value }
{
    value != 0
}

// What an operator gives of two numbers.
fn combined(op: BinaryOp, left: i32, right: i32) -> Result<i32, FaultKind>
    ensures { result ≡ binary op left right }
{
    match op {
        BinaryOp::Add => left.checked_add(right).ok_or(FaultKind::Overflow),
        BinaryOp::Sub => left.checked_sub(right).ok_or(FaultKind::Overflow),
        BinaryOp::Mul => left.checked_mul(right).ok_or(FaultKind::Overflow),
        BinaryOp::Div => {
            if right == 0 {
                Err(FaultKind::ZeroDivisor)
            } else {
                left.checked_div(right).ok_or(FaultKind::Overflow)
            }
        }
        BinaryOp::Eq => Ok(truth(left == right)),
        BinaryOp::Ne => Ok(truth(left != right)),
        BinaryOp::Lt => Ok(truth(left < right)),
        BinaryOp::Le => Ok(truth(left <= right)),
        BinaryOp::Gt => Ok(truth(left > right)),
        BinaryOp::Ge => Ok(truth(left >= right)),
        BinaryOp::And => Ok(truth(holds(left) && holds(right))),
        BinaryOp::Or => Ok(truth(holds(left) || holds(right))),
    }
}

// What an operator gives of one number.
fn changed(op: UnaryOp, value: i32) -> Result<i32, FaultKind>
    ensures { result ≡ unary op value }
{
    match op {
        UnaryOp::Neg => value.checked_neg().ok_or(FaultKind::Overflow),
        UnaryOp::Not => Ok(truth(!holds(value))),
    }
}

/// The answer of an expression of numbers and constants alone.
pub fn constant_answer(checked: &Checked, e: &Expr) -> Option<Result<i32, FaultKind>>
    ensures { result ≡ constants.constant_answer checked.now.names (expr_of e.now) }
{
    match e {
        Expr::Literal(value) => Some(Ok(*value)),
        Expr::Name(name) => match constant_value(checked.meaning(name)) {
            Some(value) => Some(Ok(value)),
            None => None,
        },
        Expr::Unary { op, arg } => match constant_answer(checked, arg) {
            Some(Ok(x)) => Some(changed(*op, x)),
            Some(Err(fault)) => Some(Err(fault)),
            None => None,
        },
        Expr::Binary { op, left, right } => match constant_answer(checked, left) {
            Some(Ok(x)) => match constant_answer(checked, right) {
                Some(Ok(y)) => Some(combined(*op, x, y)),
                Some(Err(fault)) => Some(Err(fault)),
                None => None,
            },
            Some(Err(fault)) => Some(Err(fault)),
            None => None,
        },
        Expr::Cell { .. } | Expr::Read { .. } => None,
    }
}

/// The value of an expression that is known and no fault.
pub fn known(checked: &Checked, e: &Expr) -> Option<i32>
    ensures { result ≡ value_in (constants.constant_answer checked.now.names (expr_of e.now)) }
{
    match constant_answer(checked, e) {
        Some(Ok(value)) => Some(value),
        Some(Err(_)) | None => None,
    }
}
