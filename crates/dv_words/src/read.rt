//! Reading the words behind a tool's name.
ghost use Rattle.std.specs.Prelude.{map, IfOk, IfErr};
ghost use Rattle.std.specs.String.{string_bytes};
ghost use Rattle.dv_words.specs.JobView.{job_view};
ghost use Rattle.dv_words.specs.Outcome.{IsCause, IsJobOf};

use crate::draft::Draft;
use crate::fault::WordFault;
use crate::job::Job;
use crate::step::Taken;
use crate::tool::Tool;
use std::alloc::Global;

/// Reads the words of a tool that follow its name.
pub fn read_job(alloc: Global, tool: Tool, words: &[String]) -> Result<Job, WordFault>
    ensures job { IfOk result (λ job. IsJobOf tool (map string_bytes words.now) (job_view job)) }
    ensures cause { IfErr result (IsCause tool (map string_bytes words.now)) }
{
    let mut draft = Draft::new(alloc);
    let mut waits = None;
    for (index, word) in words.iter().enumerate() {
        match draft.take(tool, waits, word.as_str()) {
            Ok(Taken::Wrong) => return Err(WordFault::Bad { index }),
            Ok(Taken::Right(next)) => waits = next,
            Err(_) => return Err(WordFault::OutOfMemory),
        }
    }
    if waits.is_some() {
        return Err(WordFault::Bad { index: words.len() });
    }
    match draft.into_job(tool) {
        Some(job) => Ok(job),
        None => Err(WordFault::Bad { index: words.len() }),
    }
}
