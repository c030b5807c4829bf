// The `IF` that is open behind tokens.
ghost use Rattle.std.specs.Prelude.{◌≡◌};
ghost use Rattle.program_advice.specs.Open.{behind, behind_class, opened_by};
ghost use Rattle.program_advice.specs.declared.kinds.Class.TheVariants.{If};

use crate::kinds::{Class, class_of};
use vap_lex::Token;
use vap_parse::kind_of;

/// How many `IF`s have no `END`, and the line of the first of them.
#[derive(Clone, Copy)]
pub(crate) struct Open {
    pub(crate) ifs: usize,
    pub(crate) line: u32,
}

// What is open behind an `IF` in this line.
fn behind_if(opened: Open, line: u32) -> Open
    ensures { result ≡ behind_class opened If line }
{
    Open {
        ifs: opened.ifs.saturating_add(1),
        line: if opened.ifs == 0 { line } else { opened.line },
    }
}

// What is open behind a token of a class in this line.
fn behind_class(opened: Open, class: Class, line: u32) -> Open
    ensures { result ≡ behind_class opened class line }
{
    match class {
        Class::If => behind_if(opened, line),
        Class::End => Open {
            ifs: opened.ifs.saturating_sub(1),
            line: opened.line,
        },
        Class::Alone | Class::Name | Class::Operand | Class::Command => opened,
        Class::Reading | Class::Assign | Class::Equal | Class::Comparison => opened,
        Class::Sum | Class::Minus | Class::Factor => opened,
    }
}

// What is open behind one more token.
fn behind(opened: Open, token: &Token) -> Open
    ensures { result ≡ behind opened token.now }
{
    behind_class(opened, class_of(kind_of(&token.kind)), token.line)
}

/// What is open behind tokens.
pub(crate) fn opened_by(tokens: &[Token]) -> Open
    ensures { result ≡ opened_by tokens.now }
{
    let mut opened = Open { ifs: 0, line: 0 };
    for token in tokens {
        opened = behind(opened, token);
    }
    opened
}
