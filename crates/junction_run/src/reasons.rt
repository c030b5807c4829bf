// Why a file is refused, as a note tells it.
ghost use Rattle.std.specs.Prelude.{◌≡◌};
ghost use Rattle.junction_run.specs.Reasons.{lex_reason, parse_reason, which_name, check_reason, code_reason, verify_reason};
ghost use Rattle.junction_run.specs.Reasons.{stream_reason, line_reason, reason_text, told_text};

use crate::stop::{LineReason, Reason};
use code_file::CodeWhy;
use code_verify::VerifyWhy;
use det_stream::StreamWhy;
use itoa::Buffer;
use log_read::why_name;
use site_load::{ReasonText, name_alone, reason_told, with_one};
use vap_check::{CheckWhy, Which};
use vap_lex::LexWhy;
use vap_parse::ParseWhy;

fn lex_reason<'x>(why: LexWhy) -> ReasonText<'x>
    ensures { told_text result ≡ lex_reason why }
{
    match why {
        LexWhy::Byte => name_alone(b"Byte"),
        LexWhy::OpenComment => name_alone(b"OpenComment"),
        LexWhy::Decimal => name_alone(b"Decimal"),
        LexWhy::NumberRange => name_alone(b"NumberRange"),
    }
}

fn parse_reason<'x>(why: ParseWhy) -> ReasonText<'x>
    ensures { told_text result ≡ parse_reason why }
{
    match why {
        ParseWhy::Unexpected(_) => name_alone(b"Unexpected"),
        ParseWhy::Frequency => name_alone(b"Frequency"),
        ParseWhy::TooDeep => name_alone(b"TooDeep"),
    }
}

fn which_name(which: Which) -> &'static [u8]
    ensures { result.now ≡ which_name which }
{
    match which {
        Which::Variables => b"Variables",
        Which::Timers => b"Timers",
        Which::Arrays => b"Arrays",
        Which::Cells => b"Cells",
        Which::Subroutines => b"Subroutines",
        Which::Labels => b"Labels",
    }
}

fn check_reason<'x>(why: CheckWhy) -> ReasonText<'x>
    ensures { told_text result ≡ check_reason why }
{
    match why {
        CheckWhy::ConstTwice => name_alone(b"ConstTwice"),
        CheckWhy::NameKind => name_alone(b"NameKind"),
        CheckWhy::LabelTwice => name_alone(b"LabelTwice"),
        CheckWhy::NoLabel => name_alone(b"NoLabel"),
        CheckWhy::SubTwice => name_alone(b"SubTwice"),
        CheckWhy::NoSub => name_alone(b"NoSub"),
        CheckWhy::ArraySize => name_alone(b"ArraySize"),
        CheckWhy::AssignConst => name_alone(b"AssignConst"),
        CheckWhy::Arity => name_alone(b"Arity"),
        CheckWhy::Limit(which) => with_one(b"Limit", which_name(which)),
        CheckWhy::StatementTooLong => name_alone(b"StatementTooLong"),
        CheckWhy::ProgramTooLong => name_alone(b"ProgramTooLong"),
    }
}

fn code_reason<'x>(why: CodeWhy) -> ReasonText<'x>
    ensures { told_text result ≡ code_reason why }
{
    match why {
        CodeWhy::Header => name_alone(b"Header"),
        CodeWhy::Line => name_alone(b"Line"),
        CodeWhy::Range => name_alone(b"Range"),
        CodeWhy::MissingEnd => name_alone(b"MissingEnd"),
        CodeWhy::Limit => name_alone(b"Limit"),
    }
}

fn verify_reason<'x>(why: VerifyWhy) -> ReasonText<'x>
    ensures { told_text result ≡ verify_reason why }
{
    match why {
        VerifyWhy::JumpOut => name_alone(b"JumpOut"),
        VerifyWhy::BackToNoTick => name_alone(b"BackToNoTick"),
        VerifyWhy::Height => name_alone(b"Height"),
        VerifyWhy::Slot => name_alone(b"Slot"),
        VerifyWhy::CallOrder => name_alone(b"CallOrder"),
        VerifyWhy::EdgeToNoTick => name_alone(b"EdgeToNoTick"),
        VerifyWhy::FallsOff => name_alone(b"FallsOff"),
        VerifyWhy::Stretch => name_alone(b"Stretch"),
        VerifyWhy::Shape => name_alone(b"Shape"),
        VerifyWhy::Commands => name_alone(b"Commands"),
    }
}

fn stream_reason<'x>(why: StreamWhy, digits: &'x mut Buffer) -> ReasonText<'x>
    ensures { told_text result ≡ stream_reason why }
{
    match why {
        StreamWhy::Entry => name_alone(b"Entry"),
        StreamWhy::Order => name_alone(b"Order"),
        StreamWhy::Range => name_alone(b"Range"),
        StreamWhy::Unknown => name_alone(b"Unknown"),
        StreamWhy::RearsAhead(detector) => {
            with_one(b"RearsAhead", digits.format(detector.0).as_bytes())
        }
        StreamWhy::LineTooLong => name_alone(b"LineTooLong"),
        StreamWhy::TooManySeconds => name_alone(b"TooManySeconds"),
    }
}

/// The pieces of the reason of a refused line.
pub(crate) fn line_reason<'x>(reason: LineReason, digits: &'x mut Buffer) -> ReasonText<'x>
    ensures { told_text result ≡ line_reason reason }
{
    match reason {
        LineReason::Frame(why) => stream_reason(why, digits),
        LineReason::Record(why) => name_alone(why_name(why)),
    }
}

/// The pieces of the reason of a refused file.
pub fn reason<'x>(reason: &'x Reason, digits: &'x mut Buffer) -> ReasonText<'x>
    ensures { told_text result ≡ reason_text reason.now }
{
    match reason {
        Reason::Site(why) => reason_told(why, digits),
        Reason::Lex(why) => lex_reason(*why),
        Reason::Parse(why) => parse_reason(*why),
        Reason::Check(why) => check_reason(*why),
        Reason::Code(why) => code_reason(*why),
        Reason::Verify(why) => verify_reason(*why),
    }
}
