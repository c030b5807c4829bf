// The kinds of tokens: how each is told, and with which others.
ghost use Rattle.std.specs.Prelude.{◌≡◌};
ghost use Rattle.program_advice.specs.Kinds.{class_of, class_place, kind_word};

use vap_parse::Kind;

/// The kinds that are told by one word for all, where they stand together.
#[derive(Clone, Copy)]
pub(crate) enum Class {
    /// One that is told by its own word.
    Alone,
    /// A name, which begins a value or a statement.
    Name,
    /// What else begins a value.
    Operand,
    /// An `IF`.
    If,
    /// An `END`.
    End,
    /// What else begins a statement.
    Command,
    /// A reading.
    Reading,
    /// `:=`.
    Assign,
    /// `=`, which compares, and gives a constant its value.
    Equal,
    /// Another comparison.
    Comparison,
    /// `+`.
    Sum,
    /// `-`, which is an operator, or begins a value.
    Minus,
    /// `*` or `/`.
    Factor,
}

/// The class of a kind.
pub(crate) fn class_of(kind: Kind) -> Class
    ensures { result ≡ class_of kind }
{
    match kind {
        Kind::Nothing | Kind::Program | Kind::VapFrequency | Kind::Const => Class::Alone,
        Kind::Array | Kind::Subroutine | Kind::ProgEnde | Kind::Then => Class::Alone,
        Kind::Else | Kind::And | Kind::Or | Kind::Colon | Kind::Semi => Class::Alone,
        Kind::Comma | Kind::Dot | Kind::Close | Kind::OpenIndex => Class::Alone,
        Kind::CloseIndex => Class::Alone,
        Kind::Name => Class::Name,
        Kind::Number | Kind::Not | Kind::Open => Class::Operand,
        Kind::If => Class::If,
        Kind::End => Class::End,
        Kind::Goto | Kind::Gosub | Kind::Trace | Kind::Start | Kind::Stop => Class::Command,
        Kind::Reset | Kind::Interstage | Kind::SgGreen | Kind::SgRed => Class::Command,
        Kind::ClearFrontEnds | Kind::ClearRearEnds | Kind::SetCycle => Class::Command,
        Kind::CurrentState | Kind::AnyInterstageActive | Kind::Detection => Class::Reading,
        Kind::Occupancy | Kind::Headway | Kind::FrontEnds | Kind::RearEnds => Class::Reading,
        Kind::TGreen | Kind::TRed | Kind::StageActive | Kind::StageDuration => Class::Reading,
        Kind::InterstageActive => Class::Reading,
        Kind::Assign => Class::Assign,
        Kind::Eq => Class::Equal,
        Kind::Ne | Kind::Lt | Kind::Le | Kind::Gt | Kind::Ge => Class::Comparison,
        Kind::Plus => Class::Sum,
        Kind::Minus => Class::Minus,
        Kind::Star | Kind::Slash => Class::Factor,
    }
}

/// The place of a class among the classes.
pub(crate) fn class_place(class: Class) -> u8
    ensures { result ≡ class_place class }
{
    match class {
        Class::Alone => 0,
        Class::Name => 1,
        Class::Operand => 2,
        Class::If => 3,
        Class::End => 4,
        Class::Command => 5,
        Class::Reading => 6,
        Class::Assign => 7,
        Class::Equal => 8,
        Class::Comparison => 9,
        Class::Sum => 10,
        Class::Minus => 11,
        Class::Factor => 12,
    }
}

/// The word or the sign of a kind, as it is told; none of a kind that the word of its class tells.
pub(crate) fn kind_word(kind: Kind) -> &'static [u8]
    ensures { result.now ≡ kind_word kind }
{
    match kind {
        Kind::Nothing => b"the end of the text",
        Kind::Name => b"a name",
        Kind::Number => b"a number",
        Kind::Program => b"`PROGRAM`",
        Kind::VapFrequency => b"`VAP_FREQUENCY`",
        Kind::Const => b"`CONST`",
        Kind::Array => b"`ARRAY`",
        Kind::Subroutine => b"`SUBROUTINE`",
        Kind::ProgEnde => b"`PROG_ENDE`",
        Kind::If => b"`IF`",
        Kind::Then => b"`THEN`",
        Kind::Else => b"`ELSE`",
        Kind::End => b"`END`",
        Kind::And => b"`AND`",
        Kind::Or => b"`OR`",
        Kind::Not => b"`NOT`",
        Kind::Assign => b"`:=`",
        Kind::Colon => b"`:`",
        Kind::Semi => b"`;`",
        Kind::Comma => b"`,`",
        Kind::Dot => b"`.`",
        Kind::Open => b"`(`",
        Kind::Close => b"`)`",
        Kind::OpenIndex => b"`[`",
        Kind::CloseIndex => b"`]`",
        Kind::Eq => b"`=`",
        Kind::Plus => b"`+`",
        Kind::Minus => b"`-`",
        Kind::Goto | Kind::Gosub | Kind::Trace | Kind::Start | Kind::Stop | Kind::Reset => b"",
        Kind::Interstage | Kind::SgGreen | Kind::SgRed | Kind::ClearFrontEnds => b"",
        Kind::ClearRearEnds | Kind::SetCycle => b"",
        Kind::CurrentState | Kind::AnyInterstageActive | Kind::Detection => b"",
        Kind::Occupancy | Kind::Headway | Kind::FrontEnds | Kind::RearEnds => b"",
        Kind::TGreen | Kind::TRed | Kind::StageActive | Kind::StageDuration => b"",
        Kind::InterstageActive => b"",
        Kind::Ne | Kind::Lt | Kind::Le | Kind::Gt | Kind::Ge => b"",
        Kind::Star | Kind::Slash => b"",
    }
}
