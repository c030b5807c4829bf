// A token of each kind.
ghost use Rattle.std.specs.Prelude.{◌≡◌, IfOk, IfErr, MatchOption, Some, None, codes};
ghost use Rattle.std.specs.Option.{ForSome};
ghost use Rattle.vap_ast.specs.Name.{IsWord, lowered};
ghost use Rattle.program_advice.specs.Probe as spec;
ghost use Rattle.vap_lex.specs.declared.token.TokenKind.TheVariants.{Word};

use sig_types::Memory;
use std::alloc::Global;
use vap_ast::Name;
use vap_lex::{Sign, TokenKind};
use vap_parse::Kind;

// The sign of a kind, if it is one.
fn sign_of(kind: Kind) -> Option<Sign>
    ensures { result ≡ spec.sign_of kind }
{
    match kind {
        Kind::Assign => Some(Sign::Assign),
        Kind::Colon => Some(Sign::Colon),
        Kind::Semi => Some(Sign::Semi),
        Kind::Comma => Some(Sign::Comma),
        Kind::Dot => Some(Sign::Dot),
        Kind::Open => Some(Sign::Open),
        Kind::Close => Some(Sign::Close),
        Kind::OpenIndex => Some(Sign::OpenIndex),
        Kind::CloseIndex => Some(Sign::CloseIndex),
        Kind::Eq => Some(Sign::Eq),
        Kind::Ne => Some(Sign::Ne),
        Kind::Lt => Some(Sign::Lt),
        Kind::Le => Some(Sign::Le),
        Kind::Gt => Some(Sign::Gt),
        Kind::Ge => Some(Sign::Ge),
        Kind::Plus => Some(Sign::Plus),
        Kind::Minus => Some(Sign::Minus),
        Kind::Star => Some(Sign::Star),
        Kind::Slash => Some(Sign::Slash),
        Kind::Nothing | Kind::Name | Kind::Number | Kind::Program | Kind::VapFrequency => None,
        Kind::Const | Kind::Array | Kind::Subroutine | Kind::ProgEnde | Kind::If => None,
        Kind::Then | Kind::Else | Kind::End | Kind::Goto | Kind::Gosub | Kind::And => None,
        Kind::Or | Kind::Not | Kind::Trace | Kind::Start | Kind::Stop | Kind::Reset => None,
        Kind::Interstage | Kind::SgGreen | Kind::SgRed | Kind::ClearFrontEnds => None,
        Kind::ClearRearEnds | Kind::CurrentState | Kind::AnyInterstageActive => None,
        Kind::Detection | Kind::Occupancy | Kind::Headway | Kind::FrontEnds => None,
        Kind::RearEnds | Kind::TGreen | Kind::TRed | Kind::StageActive => None,
        Kind::StageDuration | Kind::InterstageActive | Kind::SetCycle => None,
    }
}

// A word of a kind: its reserved word, and a name for what has none.
fn word_of(kind: Kind) -> &'static [u8]
    ensures word { result.now ≡ spec.word_of kind }
    ensures is_word { IsWord result.now }
{
    match kind {
        Kind::Program => b"program".as_slice(),
        Kind::VapFrequency => b"vap_frequency".as_slice(),
        Kind::Const => b"const".as_slice(),
        Kind::Array => b"array".as_slice(),
        Kind::Subroutine => b"subroutine".as_slice(),
        Kind::ProgEnde => b"prog_ende".as_slice(),
        Kind::If => b"if".as_slice(),
        Kind::Then => b"then".as_slice(),
        Kind::Else => b"else".as_slice(),
        Kind::End => b"end".as_slice(),
        Kind::Goto => b"goto".as_slice(),
        Kind::Gosub => b"gosub".as_slice(),
        Kind::And => b"and".as_slice(),
        Kind::Or => b"or".as_slice(),
        Kind::Not => b"not".as_slice(),
        Kind::Trace => b"trace".as_slice(),
        Kind::Start => b"start".as_slice(),
        Kind::Stop => b"stop".as_slice(),
        Kind::Reset => b"reset".as_slice(),
        Kind::Interstage => b"interstage".as_slice(),
        Kind::SgGreen => b"sg_green".as_slice(),
        Kind::SgRed => b"sg_red".as_slice(),
        Kind::ClearFrontEnds => b"clear_front_ends".as_slice(),
        Kind::ClearRearEnds => b"clear_rear_ends".as_slice(),
        Kind::CurrentState => b"current_state".as_slice(),
        Kind::AnyInterstageActive => b"any_interstage_active".as_slice(),
        Kind::Detection => b"detection".as_slice(),
        Kind::Occupancy => b"occupancy".as_slice(),
        Kind::Headway => b"headway".as_slice(),
        Kind::FrontEnds => b"front_ends".as_slice(),
        Kind::RearEnds => b"rear_ends".as_slice(),
        Kind::TGreen => b"t_green".as_slice(),
        Kind::TRed => b"t_red".as_slice(),
        Kind::StageActive => b"stage_active".as_slice(),
        Kind::StageDuration => b"stage_duration".as_slice(),
        Kind::InterstageActive => b"interstage_active".as_slice(),
        Kind::SetCycle => b"set_cycle".as_slice(),
        Kind::Nothing | Kind::Name | Kind::Number => b"a".as_slice(),
        Kind::Assign | Kind::Colon | Kind::Semi | Kind::Comma | Kind::Dot => b"a".as_slice(),
        Kind::Open | Kind::Close | Kind::OpenIndex | Kind::CloseIndex => b"a".as_slice(),
        Kind::Eq | Kind::Ne | Kind::Lt | Kind::Le | Kind::Gt | Kind::Ge => b"a".as_slice(),
        Kind::Plus | Kind::Minus | Kind::Star | Kind::Slash => b"a".as_slice(),
    }
}

// A word as what a token is.
pub(crate) fn word(alloc: Global, bytes: &[u8]) -> Result<TokenKind, Memory>
    requires { IsWord bytes.now }
    ensures { IfOk result (λ t. t ≡ Word (lowered bytes.now)) }
{
    Ok(TokenKind::Word(Name::make(alloc, bytes)?))
}

/// What a token of this kind is: its reserved word or its sign, the name `a`, or the number 1.
pub(crate) fn probe(alloc: Global, kind: Kind) -> Result<TokenKind, Memory>
    ensures { IfOk result (λ t. t ≡ spec.probe kind) }
{
    if let Some(sign) = sign_of(kind) {
        return Ok(TokenKind::Sign(sign));
    }
    if let Kind::Number = kind {
        return Ok(TokenKind::Number(1));
    }
    word(alloc, word_of(kind))
}
