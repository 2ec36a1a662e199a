//! The one call of the program.
ghost use Rattle.std.specs.Prelude.{◌≤◌, map};
ghost use Rattle.std.specs.String.{string_bytes};
ghost use Rattle.dv_base.specs.Shelf.{Keeps};
ghost use Rattle.dv_words.specs.JobView.{job_view};
ghost use Rattle.dv_words.specs.Words.{Asks};
ghost use Rattle.dv_top.specs.WholeRun.{IsComplete, JobLeaves, Runs, WordsLeave};

use crate::copy::copy_job;
use crate::list::list_job;
use crate::outcome::Outcome;
use crate::print::print_job;
use crate::sample::sample_job;
use dv_base::{Shelf, Tray};
use dv_words::{Job, WordFault, one_job, read_words};
use dvi_doc::one_document;
use font_set::{can_be_had, one_font};
use std::alloc::Global;

/// Does the job of one of the tools.
fn run_job<S: Shelf, T: Tray>(
    alloc: Global,
    words: &[String],
    job: &Job,
    shelf: &mut S,
    tray: &mut T,
) -> Outcome
    requires asked { Asks (map string_bytes words.now) (job_view job.now) }
    ensures leaves { JobLeaves (job_view job.now) (S.told shelf.old) (S.told shelf.new) (T.seen tray.old) (T.seen tray.new) result }
    ensures kept { Keeps (S.told shelf.old) (S.told shelf.new) }
    ensures later { (T.seen tray.old).faults ≤ (T.seen tray.new).faults }
{
    let _ = words;
    match job {
        Job::Print(job) => match print_job(alloc, job, shelf, tray) {
            Ok(_) => Outcome::Done,
            Err(outcome) => outcome,
        },
        Job::List(job) => match list_job(alloc, job, shelf, tray) {
            Ok(()) => Outcome::Done,
            Err(outcome) => outcome,
        },
        Job::Copy(job) => copy_job(alloc, job, shelf, tray),
        Job::Sample { pages } => sample_job(alloc, *pages, tray),
    }
}

/// Does what the words ask for.
fn run_words<S: Shelf, T: Tray>(
    alloc: Global,
    words: &[String],
    shelf: &mut S,
    tray: &mut T,
) -> Outcome
    ensures leaves { WordsLeave (map string_bytes words.now) (S.told shelf.old) (S.told shelf.new) (T.seen tray.old) (T.seen tray.new) result }
    ensures kept { Keeps (S.told shelf.old) (S.told shelf.new) }
    ensures later { (T.seen tray.old).faults ≤ (T.seen tray.new).faults }
{
    match read_words(alloc, words) {
        Ok(job) => run_job(alloc, words, &job, shelf, tray),
        Err(WordFault::Bad { index }) => Outcome::BadWords { index },
        Err(WordFault::OutOfMemory) => Outcome::OutOfMemory,
    }
}

/// Does all that the program does: reads the words, does the job that they ask for, and says how it ended.
///
/// The first word names the tool. The input and the files of fonts are read from the shelf, what is made of them goes to the tray as one
/// output.
pub fn run_tool<S: Shelf, T: Tray>(
    alloc: Global,
    words: &[String],
    shelf: &mut S,
    tray: &mut T,
) -> Outcome
    ensures run { Runs (map string_bytes words.now) (S.told shelf.old) (S.told shelf.new) (T.seen tray.old) (T.seen tray.new) result }
    ensures kept { Keeps (S.told shelf.old) (S.told shelf.new) }
    ensures later { (T.seen tray.old).faults ≤ (T.seen tray.new).faults }
    ensures complete { IsComplete (map string_bytes words.now) (S.told shelf.old) (S.told shelf.new) (T.seen tray.old) (T.seen tray.new) result }
{
    one_document();
    one_font();
    can_be_had();
    one_job();
    let outcome = run_words(alloc, words, shelf, tray);
    outcome.say(tray);
    outcome
}
