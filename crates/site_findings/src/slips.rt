// The sentences of slips: what a mistake is likely to be, and what to do.
ghost use Rattle.std.specs.Prelude.{◌≡◌};
ghost use Rattle.std.specs.Option.{option_map};
ghost use Rattle.site_findings.specs.Prose.{one_sentence, quoted_prose};
ghost use Rattle.site_findings.specs.Put.{prose_in, said_prose};
ghost use Rattle.site_findings.specs.SlipProse.{byte_slip_prose, entry_slip_prose, plan_slip_prose, table_slip_prose};
ghost use Rattle.site_findings.specs.Slips.{field_in, help_in, help_of, refused_prose, plan_slip, quoted_names, quoted_row, refusal_prose, slip_prose, table_in, table_slip};
ghost use Rattle.site_findings.specs.Slips.{told_of_byte, told_of_entry, told_of_plan, told_of_record, told_of_token};

use crate::finding::{FileKind, Refusal};
use crate::sentences::{Sentences, sentences_of};
use det_stream::StreamWhy;
use line_slips::{
    ByteSlip, EntrySlip, PlanSlip, Table, TableSlip, again_slip, byte_slip, entry_slip,
    header_slip, name_slip, names_in, number_slip, row_slip, section_slip, trimmed,
};
use program_advice::Advice;
use pua_reader::PuaWhy;
use sig_tables::TableWhy;
use vap_lex::LexWhy;
use vap_parse::ParseWhy;

static PROGRAM_AS_PLAN: Sentences = Sentences {
    means: b"a program stands in the place of the PUA file",
    often: b"",
    cure: b"`junction_check PROGRAM PUA TIMES INTERGREENS [DETECTORS]`",
};

static TABLE_AS_PLAN: Sentences = Sentences {
    means: b"a table stands in the place of the PUA file",
    often: b"",
    cure: b"`junction_check PROGRAM PUA TIMES INTERGREENS [DETECTORS]`",
};

static COMMENT_SIGN: Sentences = Sentences {
    means: b"no row of its section; a comment of a PUA file begins with `$`, and with no other sign",
    often: b"",
    cure: b"begin it with `$` and a blank",
};

static DECIMAL_SECONDS: Sentences = Sentences {
    means: b"a decimal; the seconds of a PUA file are whole numbers",
    often: b"",
    cure: b"the next whole second",
};

static SECOND_KEY: Sentences = Sentences {
    means: b"a second `length`, `from` or `to`, so the `$INTERSTAGE` above is missing or misspelt and is a comment; or \
             no whole number behind it",
    often: b"",
    cure: b"`$INTERSTAGE2` above; `length: 6`, `from stage: 1`, `to stage: 2`",
};

static RED_ROW: Sentences = Sentences {
    means: b"a `red` row names a group that is green in the stage above, or follows no row of a stage",
    often: b"",
    cure: b"the groups that are red in the stage, below its row",
};

static ONE_NUMBER: Sentences = Sentences {
    means: b"the row of this group has one number, and it needs two numbers: the seconds R and E in which its red and \
             its green end",
    often: b"",
    cure: b"ending group `-127 E`, starting group `R 127`",
};

static LONE_STAGE: Sentences = Sentences {
    means: b"the name stands above already, and it stands alone: the `$STARTING_STAGE` above is missing or misspelt and \
             is a comment",
    often: b"",
    cure: b"look at the `$` line above",
};

static GROUP_AGAIN: Sentences = Sentences {
    means: b"has a name or a number twice, or one that stands above already",
    often: b"",
    cure: b"each group has a name and a number of its own",
};

static SEMICOLONS: Sentences = Sentences {
    means: b"the fields are parted by `;`, and have to be by `,`",
    often: b"a table program with a German setting saved it",
    cure: b"save it with `,`, or exchange each `;`",
};

static MATRIX: Sentences = Sentences {
    means: b"a matrix, where a list of pairs has to stand: one record `from,to,seconds` for each two groups, both ways",
    often: b"",
    cure: b"`tools/intergreens_from_matrix.py` makes the list",
};

static PAIRS_AS_TIMES: Sentences = Sentences {
    means: b"the table of intergreens stands in the place of the table of times",
    often: b"",
    cure: b"`junction_check PROGRAM PUA TIMES INTERGREENS [DETECTORS]`",
};

static TIMES_AS_PAIRS: Sentences = Sentences {
    means: b"the table of times stands in the place of the table of intergreens",
    often: b"",
    cure: b"`junction_check PROGRAM PUA TIMES INTERGREENS [DETECTORS]`",
};

static OTHER_WORDS: Sentences = Sentences {
    means: b"the first record isn't the header, word for word: other columns or another language",
    often: b"blanks after the commas, columns in another order, UTF-16, an empty file",
    cure: b"`group,min_green,red_amber,amber`, with `,min_red` or without; `from,to,seconds`",
};

static BLANK_IN_RECORD: Sentences = Sentences {
    means: b"a group that the PUA file doesn't have",
    often: b"a blank in the field",
    cure: b"names as in `$SIGNAL_GROUPS`, without blanks around them",
};

static NO_SUCH_GROUP: Sentences = Sentences {
    means: b"names a group that the PUA file doesn't have",
    often: b"",
    cure: b"names as in `$SIGNAL_GROUPS`, in upper and lower case too",
};

static MINIMUM_GREEN: Sentences = Sentences {
    means: b"where the minimum green has to be a whole number, 1 to 255",
    often: b"`05`, a decimal, a blank, 0",
    cure: b"the second field: 1 to 255",
};

static RED_AMBER: Sentences = Sentences {
    means: b"where the red-amber has to be a whole number, 0 to 9",
    often: b"a decimal; the columns exchanged",
    cure: b"the third field: 0 to 9",
};

static AMBER: Sentences = Sentences {
    means: b"where the amber has to be a whole number, 0 to 9",
    often: b"a decimal; the columns exchanged",
    cure: b"the fourth field: 0 to 9",
};

static MINIMUM_RED: Sentences = Sentences {
    means: b"where the minimum red has to be a whole number, 1 to 255",
    often: b"`05`, a decimal, a blank, 0",
    cure: b"the fifth field: 1 to 255",
};

static INTERGREEN: Sentences = Sentences {
    means: b"where the intergreen has to be a whole number, 0 to 99",
    often: b"a decimal, a blank, `05`",
    cure: b"the third field: 0 to 99",
};

static PLAN_AS_PROGRAM: Sentences = Sentences {
    means: b"`$` begins no token; a PUA file stands in the place of the program",
    often: b"",
    cure: b"`junction_check PROGRAM PUA TIMES INTERGREENS [DETECTORS]`",
};

static NOT_EQUAL: Sentences = Sentences {
    means: b"`!` begins no token; what differs is written `<>`",
    often: b"",
    cure: b"`<>`",
};

static BRACES: Sentences = Sentences {
    means: b"a brace begins no token; a comment is written `/* .. */`",
    often: b"",
    cure: b"`/* .. */`",
};

static QUOTES: Sentences = Sentences {
    means: b"a quote begins no token; the language has no texts",
    often: b"",
    cure: b"numbers: groups and stages go by theirs",
};

static AND_OR: Sentences = Sentences {
    means: b"`&` and `|` begin no token; they are written `AND` and `OR`",
    often: b"",
    cure: b"`AND`, `OR`",
};

static BEYOND_ASCII: Sentences = Sentences {
    means: b"a letter or a sign beyond ASCII, outside a comment",
    often: b"an umlaut, a long dash, a blank that can't be broken",
    cure: b"names of the letters A to Z, digits and `_`",
};

static CONTROL_BYTE: Sentences = Sentences {
    means: b"a control byte, as a byte 0, stands in the line",
    often: b"a file in UTF-16; a broken copy",
    cure: b"save it as ASCII or UTF-8",
};

static TWO_BLANKS: Sentences = Sentences {
    means: b"two spaces part the entries, where one has to",
    often: b"",
    cure: b"one space between entries",
};

static BLANK_AT_END: Sentences = Sentences {
    means: b"a space stands at the end of the line",
    often: b"",
    cure: b"no space at the end of a line",
};

static COMMAS: Sentences = Sentences {
    means: b"the three numbers of an entry are parted by `,`, and have to be by `:`",
    often: b"",
    cure: b"`detector:fronts:rears`",
};

static TWO_NUMBERS: Sentences = Sentences {
    means: b"an entry has two numbers, and needs three: the rears are missing",
    often: b"",
    cure: b"`detector:fronts:rears`",
};

static HEADINGS: Sentences = Sentences {
    means: b"the line has words; the file has no row of headings and no comments",
    often: b"",
    cure: b"take it out: the first line is second 1",
};

// The sentences of a slip.
fn of_plan(slip: PlanSlip) -> &'static Sentences
    ensures { prose_in result.now ≡ plan_slip_prose slip }
{
    match slip {
        PlanSlip::ProgramAsPlan => &PROGRAM_AS_PLAN,
        PlanSlip::TableAsPlan => &TABLE_AS_PLAN,
        PlanSlip::CommentSign => &COMMENT_SIGN,
        PlanSlip::DecimalSeconds => &DECIMAL_SECONDS,
        PlanSlip::SecondKey => &SECOND_KEY,
        PlanSlip::RedRow => &RED_ROW,
        PlanSlip::OneNumber => &ONE_NUMBER,
        PlanSlip::LoneStage => &LONE_STAGE,
        PlanSlip::GroupAgain => &GROUP_AGAIN,
    }
}

// The sentences of a slip.
fn of_table(slip: TableSlip) -> &'static Sentences
    ensures { prose_in result.now ≡ table_slip_prose slip }
{
    match slip {
        TableSlip::Semicolons => &SEMICOLONS,
        TableSlip::Matrix => &MATRIX,
        TableSlip::PairsAsTimes => &PAIRS_AS_TIMES,
        TableSlip::TimesAsPairs => &TIMES_AS_PAIRS,
        TableSlip::OtherWords => &OTHER_WORDS,
        TableSlip::BlankInRecord => &BLANK_IN_RECORD,
        TableSlip::NoSuchGroup => &NO_SUCH_GROUP,
        TableSlip::MinimumGreen => &MINIMUM_GREEN,
        TableSlip::RedAmber => &RED_AMBER,
        TableSlip::Amber => &AMBER,
        TableSlip::MinimumRed => &MINIMUM_RED,
        TableSlip::Intergreen => &INTERGREEN,
    }
}

// The sentences of a slip.
fn of_byte(slip: ByteSlip) -> &'static Sentences
    ensures { prose_in result.now ≡ byte_slip_prose slip }
{
    match slip {
        ByteSlip::PlanAsProgram => &PLAN_AS_PROGRAM,
        ByteSlip::NotEqual => &NOT_EQUAL,
        ByteSlip::Braces => &BRACES,
        ByteSlip::Quotes => &QUOTES,
        ByteSlip::AndOr => &AND_OR,
        ByteSlip::BeyondAscii => &BEYOND_ASCII,
        ByteSlip::ControlByte => &CONTROL_BYTE,
    }
}

// The sentences of a slip.
fn of_entry(slip: EntrySlip) -> &'static Sentences
    ensures { prose_in result.now ≡ entry_slip_prose slip }
{
    match slip {
        EntrySlip::TwoBlanks => &TWO_BLANKS,
        EntrySlip::BlankAtEnd => &BLANK_AT_END,
        EntrySlip::Commas => &COMMAS,
        EntrySlip::TwoNumbers => &TWO_NUMBERS,
        EntrySlip::Headings => &HEADINGS,
    }
}

/// What is told of a reason: a part of its line, which may be empty, and sentences.
#[derive(Drop)]
pub(crate) struct Said<'a> {
    pub(crate) quoted: &'a [u8],
    pub(crate) means: &'a [u8],
    pub(crate) often: &'a [u8],
    pub(crate) cure: &'a [u8],
}

// Sentences behind a part of a line.
fn quoted<'a>(quoted: &'a [u8], sentences: &'static Sentences) -> Said<'a>
    ensures { said_prose result ≡ quoted_prose quoted.now (prose_in sentences.now) }
{
    Said {
        quoted,
        means: sentences.means,
        often: sentences.often,
        cure: sentences.cure,
    }
}

/// Sentences with nothing before them.
#[tactic(auto, unfolding(crate::specs::Prose::quote_text))]
pub(crate) fn plain<'a>(sentences: &'static Sentences) -> Said<'a>
    ensures { said_prose result ≡ prose_in sentences.now }
{
    quoted(&[], sentences)
}

// One sentence alone.
#[tactic(auto, unfolding(crate::specs::Prose::quote_text))]
fn alone<'a>(means: &'a [u8]) -> Said<'a>
    ensures { said_prose result ≡ one_sentence means.now }
{
    Said {
        quoted: &[],
        means,
        often: &[],
        cure: &[],
    }
}

// What of a line stands before what is told of its slip: a group's row.
fn quoted_row(slip: PlanSlip, line: &[u8]) -> &[u8]
    ensures { result.now ≡ quoted_row slip line.now }
{
    match slip {
        PlanSlip::OneNumber | PlanSlip::GroupAgain => trimmed(line),
        PlanSlip::ProgramAsPlan
        | PlanSlip::TableAsPlan
        | PlanSlip::CommentSign
        | PlanSlip::DecimalSeconds
        | PlanSlip::SecondKey
        | PlanSlip::RedRow
        | PlanSlip::LoneStage => &[],
    }
}

// The slip of a line of a PUA file.
fn plan_slip(why: &PuaWhy, line: &[u8]) -> Option<PlanSlip>
    ensures { result ≡ plan_slip why.now line.now }
{
    match why {
        PuaWhy::Section => section_slip(line),
        PuaWhy::Row => row_slip(line),
        PuaWhy::NameTwice => again_slip(line),
        PuaWhy::NotText
        | PuaWhy::UnknownName
        | PuaWhy::Range
        | PuaWhy::NoStart
        | PuaWhy::PairTwice
        | PuaWhy::Inconsistent {
            inter: _,
            group: _,
            name: _,
        }
        | PuaWhy::Limit => None,
    }
}

// What is told of the slip of a line of a PUA file.
fn said_of_plan<'a>(why: &PuaWhy, line: &'a [u8]) -> Option<Said<'a>>
    ensures { option_map said_prose result ≡ option_map (λ slip. told_of_plan slip line.now) (plan_slip why.now line.now) }
{
    let slip = plan_slip(why, line)?;
    Some(quoted(quoted_row(slip, line), of_plan(slip)))
}

// The table that a file is; None for another file.
fn table_in(file: FileKind) -> Option<Table>
    ensures { result ≡ table_in file }
{
    match file {
        FileKind::Times => Some(Table::Times),
        FileKind::Intergreens => Some(Table::Intergreens),
        FileKind::Pua | FileKind::Program | FileKind::Detectors => None,
    }
}

// The slip of a record.
fn table_slip(why: TableWhy, table: Table, row: &[u8]) -> Option<TableSlip>
    ensures { result ≡ table_slip why table row.now }
{
    match why {
        TableWhy::Header => header_slip(table, row),
        TableWhy::Number => number_slip(table, row),
        TableWhy::UnknownName => name_slip(row),
        TableWhy::Fields
        | TableWhy::Twice
        | TableWhy::Missing(_)
        | TableWhy::OneWay(_, _)
        | TableWhy::SelfConflict => None,
    }
}

// The field at a place of a record, from 0; no bytes where there is none.
fn field_in(row: &[u8], place: usize) -> &[u8]
    ensures { result.now ≡ field_in row.now place }
{
    match row.split(|b| *b == b',').nth(place) {
        Some(field) => field,
        None => &[],
    }
}

// What of a record stands before what is told of its slip: names that are no groups', or the field that is no number.
fn quoted_names(slip: TableSlip, row: &[u8]) -> &[u8]
    ensures { result.now ≡ quoted_names slip row.now }
{
    match slip {
        TableSlip::NoSuchGroup => names_in(row),
        TableSlip::Semicolons
        | TableSlip::Matrix
        | TableSlip::PairsAsTimes
        | TableSlip::TimesAsPairs
        | TableSlip::OtherWords
        | TableSlip::BlankInRecord => &[],
        TableSlip::MinimumGreen => field_in(row, 1),
        TableSlip::RedAmber | TableSlip::Intergreen => field_in(row, 2),
        TableSlip::Amber => field_in(row, 3),
        TableSlip::MinimumRed => field_in(row, 4),
    }
}

// What is told of the slip of a record.
fn said_of_record<'a>(why: TableWhy, file: FileKind, row: &'a [u8]) -> Option<Said<'a>>
    ensures { option_map said_prose result ≡ told_of_record why row.now (table_in file) }
{
    let slip = table_slip(why, table_in(file)?, row)?;
    Some(quoted(quoted_names(slip, row), of_table(slip)))
}

// The sentences of a byte that begins no token.
fn sentences_of_byte(why: LexWhy, line: &[u8]) -> Option<&'static Sentences>
    ensures { option_map (λ s. prose_in s.now) result ≡ told_of_byte why line.now }
{
    match why {
        LexWhy::Byte => Some(of_byte(byte_slip(line)?)),
        LexWhy::OpenComment | LexWhy::Decimal | LexWhy::NumberRange => None,
    }
}

// What is told of the first refused token; None where nothing is.
fn said_of_token<'a>(why: ParseWhy, advice: &'a Option<Advice>) -> Option<Said<'a>>
    ensures { option_map said_prose result ≡ told_of_token why advice.now }
{
    match (why, advice) {
        (ParseWhy::Unexpected(_), Some(advice)) => {
            if advice.means.is_empty() {
                None
            } else {
                Some(alone(&advice.means))
            }
        }
        (ParseWhy::Unexpected(_), None) | (ParseWhy::Frequency | ParseWhy::TooDeep, _) => None,
    }
}

// The sentences of an entry that isn't three numbers.
fn sentences_of_entry(why: StreamWhy, line: &[u8]) -> Option<&'static Sentences>
    ensures { option_map (λ s. prose_in s.now) result ≡ told_of_entry why line.now }
{
    match why {
        StreamWhy::Entry => Some(of_entry(entry_slip(line)?)),
        StreamWhy::Order
        | StreamWhy::Range
        | StreamWhy::Unknown
        | StreamWhy::RearsAhead(_)
        | StreamWhy::LineTooLong
        | StreamWhy::TooManySeconds => None,
    }
}

// What is told of a slip; None where the line shows none.
fn slip_said<'a>(
    refusal: &Refusal,
    file: FileKind,
    advice: &'a Option<Advice>,
    line: &'a [u8],
) -> Option<Said<'a>>
    ensures { option_map said_prose result ≡ slip_prose file refusal.now advice.now line.now }
{
    match refusal {
        Refusal::Pua(why) => said_of_plan(why, line),
        Refusal::Table(why) => said_of_record(*why, file, line),
        Refusal::Lex(why) => Some(plain(sentences_of_byte(*why, line)?)),
        Refusal::Parse(why) => said_of_token(*why, advice),
        Refusal::Stream(why) => Some(plain(sentences_of_entry(*why, line)?)),
        Refusal::Check(_) | Refusal::Mark | Refusal::TooLong => None,
    }
}

// What is told of a refusal but for its change: what its line shows of the mistake, else what the reason means.
fn said_of_reason<'a>(
    refusal: &Refusal,
    file: FileKind,
    advice: &'a Option<Advice>,
    line: &'a [u8],
) -> Said<'a>
    ensures { said_prose result ≡ refused_prose file refusal.now advice.now line.now }
{
    match slip_said(refusal, file, advice, line) {
        Some(said) => said,
        None => plain(sentences_of(refusal)),
    }
}

// The change that is told of a program.
fn help_in(advice: &Option<Advice>) -> &[u8]
    ensures { result.now ≡ help_in advice.now }
{
    match advice {
        Some(advice) => &advice.help,
        None => &[],
    }
}

/// The change that is told of a refusal.
pub(crate) fn help_of<'a>(refusal: &Refusal, advice: &'a Option<Advice>) -> &'a [u8]
    ensures { result.now ≡ help_of refusal.now advice.now }
{
    match refusal {
        Refusal::Lex(_) | Refusal::Parse(_) | Refusal::Check(_) => help_in(advice),
        Refusal::Pua(_) | Refusal::Table(_) | Refusal::Stream(_) => &[],
        Refusal::Mark | Refusal::TooLong => &[],
    }
}

/// What is told of a refusal. Where a change is, it stands in the place of what the mistake most often is, and of what to do.
pub(crate) fn said_of<'a>(
    refusal: &Refusal,
    file: FileKind,
    advice: &'a Option<Advice>,
    line: &'a [u8],
) -> Said<'a>
    ensures { said_prose result ≡ refusal_prose file refusal.now advice.now line.now }
{
    let said = said_of_reason(refusal, file, advice, line);
    let help = help_of(refusal, advice);
    if help.is_empty() {
        said
    } else {
        Said {
            quoted: said.quoted,
            means: said.means,
            often: &[],
            cure: help,
        }
    }
}
