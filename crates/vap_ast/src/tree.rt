// The trees of a program.
use crate::name::Name;
use sig_types::{CommandKind, ReadingKind, TimerKind};

/// A program as its text writes it: the declarations in order, and the main routine, which has the program's name.
#[derive(Drop)]
pub struct Program {
    pub consts: Vec<ConstDecl>,
    pub arrays: Vec<ArrayDecl>,
    pub subs: Vec<Routine>,
    pub main: Routine,
}

/// A declared constant, with the line of its name, from 1.
#[derive(Drop)]
pub struct ConstDecl {
    pub name: Name,
    pub line: u32,
    pub value: i32,
}

/// A declared array, with the line of its name, the number of cells that it declares and the values that it lists.
#[derive(Drop)]
pub struct ArrayDecl {
    pub name: Name,
    pub line: u32,
    pub size: i32,
    pub values: Vec<i32>,
}

/// A subroutine or the main routine, with the line of its name.
#[derive(Drop)]
pub struct Routine {
    pub name: Name,
    pub line: u32,
    pub body: Items,
}

/// Labels and statements, one after another.
#[cycle(tree)]
#[derive(Drop)]
pub struct Items(pub Vec<Item>);

/// A label, with the line of its name, or a statement, with the line of its first token.
#[cycle(tree)]
#[derive(Drop)]
pub enum Item {
    Label { name: Name, line: u32 },
    Step { line: u32, what: Stmt },
}

/// A statement. An `IF` without `ELSE` has an empty list there; `GOTO PROG_ENDE` has the label `prog_ende`.
#[cycle(tree)]
#[derive(Drop)]
pub enum Stmt {
    /// `target := value`
    Assign {
        target: Name,
        value: Expr,
    },
    /// `array[index] := value`
    Cell {
        array: Name,
        index: Expr,
        value: Expr,
    },
    /// `IF test THEN yes ELSE no END`
    If {
        test: Expr,
        yes: Items,
        no: Items,
    },
    /// A jump to a label of the same routine.
    Goto {
        label: Name,
    },
    /// A call of a subroutine.
    Gosub {
        sub: Name,
    },
    /// A command to the controller.
    Do {
        kind: CommandKind,
        args: Vec<Expr>,
    },
    /// A command to a timer.
    Timer {
        kind: TimerKind,
        timer: Name,
    },
    /// `TRACE`, which does nothing.
    Trace,
}

/// An expression. Brackets are no part of it.
#[derive(Drop)]
pub enum Expr {
    /// A number.
    Literal(i32),
    /// A plain name.
    Name(Name),
    /// A cell of an array, counted from 1.
    Cell {
        array: Name,
        index: Box<Expr>,
    },
    /// An operator on one number.
    Unary {
        op: UnaryOp,
        arg: Box<Expr>,
    },
    /// An operator on two numbers.
    Binary {
        op: BinaryOp,
        left: Box<Expr>,
        right: Box<Expr>,
    },
    /// A reading of the controller.
    Read {
        kind: ReadingKind,
        args: Vec<Expr>,
    },
}

/// An operator on one number.
#[derive(Clone, Copy, Drop)]
pub enum UnaryOp {
    /// `-`
    Neg,
    /// `NOT`
    Not,
}

/// An operator on two numbers; both sides are always computed, the left one first.
#[derive(Clone, Copy, Drop)]
pub enum BinaryOp {
    /// `OR`
    Or,
    /// `AND`
    And,
    /// `=`
    Eq,
    /// `<>`
    Ne,
    /// `<`
    Lt,
    /// `<=`
    Le,
    /// `>`
    Gt,
    /// `>=`
    Ge,
    /// `+`
    Add,
    /// `-`
    Sub,
    /// `*`
    Mul,
    /// `/`
    Div,
}
