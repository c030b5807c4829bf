// What a run works on.
ghost use Rattle.std.specs.Prelude.{◌≡◌, ◌≤◌, ◌∷◌, [], ◌++◌, ℕ, List, IfOk, IfErr, length, map, string_bytes};
ghost use Rattle.std.specs.Option.{ForSome};
ghost use Rattle.std.specs.Io.KnownBytes.{append_known};
ghost use Rattle.sig_io.specs.Outside.{Rose};
ghost use Rattle.pua_model.specs.Plan.{groups_in};
ghost use Rattle.junction_run.specs.Form.{site_files, word_of};
ghost use Rattle.junction_run.specs.FormWords.{site_in, source_in};
ghost use Rattle.junction_run.specs.Notes.{IsNote};
ghost use Rattle.junction_run.specs.SiteAnswer.{program_named, site_named, IsLoadStatus, IsSiteLoad, IsSiteNote};
ghost use Rattle.junction_run.specs.Sites.{IsSourceFile, IsSourceLoad};
ghost use Rattle.junction_run.specs.Stop.{IsAt, IsAmong, StopsWith, load_status};
ghost use Rattle.junction_run.specs.declared.status.Status.TheVariants as status;

use crate::code::take_code;
use crate::form::{Source, site_words};
use crate::notes::write_load_stop;
use crate::program::take_program;
use crate::site::take_site;
use crate::status::Status;
use crate::stop::{LoadStop, load_status};
use code_verify::Verified;
use pua_model::Plan;
use sig_io::{Files, Sink};
use sig_tables::{Intergreens, Times};
use site_load::{SiteTables, SiteWords};
use std::alloc::Global;

/// A site, and the code that decides its passes. The tables were read against the plan.
#[derive(Drop)]
pub struct Site {
    pub plan: Plan,
    pub times: Times,
    pub intergreens: Intergreens,
    pub code: Verified,
}

// The site of these tables with this code.
fn with_code(tables: SiteTables, code: Verified) -> Site
    ensures { result ≡ record { plan = tables.plan; times = tables.times; intergreens = tables.intergreens; code = code } }
{
    let SiteTables {
        plan,
        times,
        intergreens,
    } = tables;
    Site {
        plan,
        times,
        intergreens,
        code,
    }
}

// Reads and judges the file of a source.
fn take_source<'a, F: Files>(
    alloc: Global,
    source: &Source<'a>,
    files: &mut F,
) -> Result<Verified, LoadStop<'a>>
    ensures code { ForSome (F.told files.old) (λ file.
        IsSourceFile (source_in source.now) (file (word_of (source_in source.now))) result) }
    ensures word { IfErr result (λ stop. IsAt (word_of (source_in source.now)) stop) }
    ensures contents_stay { F.told files.new ≡ F.told files.old }
    ensures later { F.faults files.old ≤ F.faults files.new }
    ensures cause { StopsWith load_status status.ReadFault result → Rose (F.faults files.old) (F.faults files.new) }
{
    match source {
        Source::Program(word) => take_program(alloc, word, files),
        Source::Code(word) => take_code(alloc, word, files),
    }
}

/// Reads and judges the plan, the times, the intergreens and a source, one after the other.
///
/// The error is the first file that is not as it must be, or that could not be read, or `Memory`.
pub fn load_source<'a, F: Files>(
    alloc: Global,
    source: &Source<'a>,
    words: &SiteWords<'a>,
    files: &mut F,
) -> Result<Site, LoadStop<'a>>
    ensures loaded { ForSome (F.told files.old) (λ file. IsSourceLoad (source_in source.now) (site_in words.now) file result) }
    ensures times { IfOk result (λ s. length s.times ≡ groups_in s.plan) }
    ensures intergreens { IfOk result (λ s. s.intergreens.count ≡ groups_in s.plan) }
    ensures word { IfErr result (λ stop.
        IsAmong (site_files (site_in words.now) ++ word_of (source_in source.now) ∷ []) stop) }
    ensures contents_stay { F.told files.new ≡ F.told files.old }
    ensures later { F.faults files.old ≤ F.faults files.new }
    ensures cause { StopsWith load_status status.ReadFault result → Rose (F.faults files.old) (F.faults files.new) }
{
    let tables = match take_site(alloc, words, files) {
        Ok(tables) => tables,
        Err(stop) => return Err(stop),
    };
    match take_source(alloc, source, files) {
        Ok(code) => Ok(with_code(tables, code)),
        Err(stop) => Err(stop),
    }
}

// The same of a program, with the note of a stop.
fn load_named<'a, F: Files, N: Sink>(
    alloc: Global,
    program: &'a str,
    words: &SiteWords<'a>,
    files: &mut F,
    notes: &mut N,
) -> Result<Site, Status>
    ensures loaded { ForSome (F.told files.old) (λ file. IsSiteLoad program.now (site_in words.now) file result) }
    ensures times { IfOk result (λ s. length s.times ≡ groups_in s.plan) }
    ensures intergreens { IfOk result (λ s. s.intergreens.count ≡ groups_in s.plan) }
    ensures quiet { IfOk result (λ s. notes.new ≡ notes.old) }
    ensures read_fault { IfErr result (λ s. s ≡ Status.ReadFault → Rose (F.faults files.old) (F.faults files.new)) }
    ensures statuses { IfErr result IsLoadStatus }
    ensures note { IfErr result (λ s. (Rose (N.faults notes.old) (N.faults notes.new) → ⊥) →
        (note : List ℕ) × (N.taken notes.new ≡ append_known (N.taken notes.old) note)
        × IsNote (site_files (site_in words.now) ++ program.now ∷ []) s note
        × ForSome (F.told files.old) (λ file. IsSiteNote program.now (site_in words.now) file s note)) }
    ensures contents_stay { F.told files.new ≡ F.told files.old }
    ensures later { F.faults files.old ≤ F.faults files.new }
{
    match load_source(alloc, &Source::Program(program), words, files) {
        Ok(site) => Ok(site),
        Err(stop) => {
            write_load_stop(&stop, notes);
            Err(load_status(&stop))
        }
    }
}

/// Reads and judges a program at its site, as `run` does. The four names are those of the program, the PUA file, the times and
/// the intergreens; the files are taken in the order PUA, times, intergreens, program.
///
/// The error is `Memory`, `ReadFault`, `RefusedFile` or `TooLong`, as `run` would answer it, and `notes` takes its note.
pub fn load_site<F: Files, N: Sink>(
    alloc: Global,
    names: &[String],
    files: &mut F,
    notes: &mut N,
) -> Result<Site, Status>
    requires { length names.now ≡ 4 }
    // Where the files tell what they hold, they give this site and code that does what the program does, or they are refused so.
    ensures loaded { ForSome (F.told files.old) (λ file.
        IsSiteLoad (program_named (map string_bytes names.now)) (site_named (map string_bytes names.now)) file result) }
    ensures times { IfOk result (λ s. length s.times ≡ groups_in s.plan) }
    ensures intergreens { IfOk result (λ s. s.intergreens.count ≡ groups_in s.plan) }
    ensures quiet { IfOk result (λ s. notes.new ≡ notes.old) }
    ensures read_fault { IfErr result (λ s. s ≡ Status.ReadFault → Rose (F.faults files.old) (F.faults files.new)) }
    // Nothing else is answered, whether the files tell or not.
    ensures statuses { IfErr result IsLoadStatus }
    // Notes has taken the status's note, unless it failed; where the files tell what they hold, it is theirs.
    ensures note { IfErr result (λ s. (Rose (N.faults notes.old) (N.faults notes.new) → ⊥) →
        (note : List ℕ) × (N.taken notes.new ≡ append_known (N.taken notes.old) note)
        × IsNote (site_files (site_named (map string_bytes names.now)) ++ program_named (map string_bytes names.now) ∷ []) s note
        × ForSome (F.told files.old) (λ file.
        IsSiteNote (program_named (map string_bytes names.now)) (site_named (map string_bytes names.now)) file s note)) }
    ensures contents_stay { F.told files.new ≡ F.told files.old }
    ensures later { F.faults files.old ≤ F.faults files.new }
{
    match names {
        [program, plan, times, intergreens] => {
            let words = site_words(plan, times, intergreens);
            load_named(alloc, program.as_str(), &words, files, notes)
        }
        _ => unreachable!(),
    }
}
