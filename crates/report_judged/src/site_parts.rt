// What a site gives a diagram.
ghost use Rattle.std.specs.Prelude.{◌≡◌, ◌≤◌, false, IsTrue, IfOk, IfErr, length, map};
ghost use Rattle.std.specs.Option.{ForSome};
ghost use Rattle.sig_io.specs.Outside.{Rose};
ghost use Rattle.site_load.specs.Stop.{IsAt, IsReadFault, IsUnread};
ghost use Rattle.pua_lines.specs.StageWords.{stage_words};
ghost use Rattle.sig_tables.specs.TimesTable.{row_of};
ghost use Rattle.report_judged.specs.SiteParts.{minimums_to, short_name, short_names};

use pua_lines::stage_names;
use pua_model::Plan;
use sig_io::{Files, ReadRefusal, TEXT_LIMIT, read_whole};
use sig_tables::Times;
use sig_types::{GroupNo, Memory, ShortName};
use site_load::SiteStop;
use std::alloc::Global;

/// Whether these are the names of the plan's groups.
pub(crate) fn has_groups(names: &[ShortName], plan: &Plan) -> bool
    ensures same { IsTrue result → names.now ≡ plan.now.names }
    ensures other { result ≡ false → names.now ≡ plan.now.names → ⊥ }
{
    if names.len() != usize::from(plan.groups()) {
        return false;
    }
    for place in 0..names.len() {
        if names[place].bytes() != plan.group_name(GroupNo(place as u8)).as_bytes() {
            return false;
        }
    }
    true
}

/// The minimum greens of a table of times.
pub(crate) fn minimums_of(alloc: Global, times: &Times) -> Result<Vec<u8>, Memory>
    ensures { IfOk result (λ v. v.items ≡ minimums_to (λ g. (row_of times.now g).min) (length times.now)) }
{
    let mut minimums = Vec::new(alloc);
    for group in 0..times.groups() {
        match minimums.push(times.min(GroupNo(group))) {
            Ok(()) => {}
            Err(_) => return Err(Memory),
        }
    }
    Ok(minimums)
}

// A name of a stage; a dash for a word that can't be one.
fn short_name(word: &[u8]) -> ShortName
    ensures { result ≡ short_name word.now }
{
    if 1 <= word.len() && word.len() <= 32 {
        ShortName::of(word)
    } else {
        ShortName::of(b"-")
    }
}

// The names of stages.
fn short_names(alloc: Global, words: &[Vec<u8>]) -> Result<Vec<ShortName>, Memory>
    ensures { IfOk result (λ v. v.items ≡ short_names (map (λ w. w.items) words.now)) }
{
    let mut names = Vec::new(alloc);
    for word in words {
        match names.push(short_name(word.as_slice())) {
            Ok(()) => {}
            Err(_) => return Err(Memory),
        }
    }
    Ok(names)
}

// The names of the stages in the text of a plan.
fn names_in(alloc: Global, text: &[u8]) -> Result<Vec<ShortName>, Memory>
    requires { length text.now ≤ 1048576 }
    ensures { IfOk result (λ v. v.items ≡ short_names (stage_words text.now)) }
{
    match stage_names(alloc, text) {
        Ok(words) => short_names(alloc, &words),
        Err(_) => Err(Memory),
    }
}

/// Reads the names of the stages in the file of a plan.
pub(crate) fn take_names<'a, F: Files>(
    alloc: Global,
    word: &'a str,
    files: &mut F,
) -> Result<Vec<ShortName>, SiteStop<'a>>
    ensures names { ForSome (F.told files.old) (λ file. IfOk result (λ v. v.items ≡ short_names (stage_words (file word.now)))) }
    ensures unread { ForSome (F.told files.old) (λ file. IfErr result (λ stop. IsUnread (file word.now) stop)) }
    ensures word { IfErr result (λ stop. IsAt word.now stop) }
    ensures contents_stay { F.told files.new ≡ F.told files.old }
    ensures later { F.faults files.old ≤ F.faults files.new }
    ensures cause { IsReadFault result → Rose (F.faults files.old) (F.faults files.new) }
{
    let text = match read_whole(alloc, files, word, TEXT_LIMIT) {
        Ok(text) => text,
        Err(ReadRefusal::Memory) => return Err(SiteStop::Memory),
        Err(ReadRefusal::Fault) => return Err(SiteStop::ReadFault(word)),
        Err(ReadRefusal::TooLong(_)) => return Err(SiteStop::TooLong(word)),
    };
    match names_in(alloc, &text) {
        Ok(names) => Ok(names),
        Err(_) => Err(SiteStop::Memory),
    }
}
