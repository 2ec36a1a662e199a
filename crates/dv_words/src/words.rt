//! The words of a run.
ghost use Rattle.std.specs.Prelude.{◌≡◌, ◌-◌, ◌^◌, ℕ, List, map, IfOk, IfErr};
ghost use Rattle.std.specs.String.{string_bytes};
ghost use Rattle.dv_words.specs.Words.{Asks};
ghost use Rattle.dv_words.specs.JobView.{job_view};
ghost use Rattle.dv_words.specs.Answers.{HasSample, IsBelow, IsFault, IsNamed, SampleWords, behind};
ghost use Rattle.dv_words.specs.Language.{IsWrongAt};

use crate::fault::WordFault;
use crate::job::Job;
use crate::number::number_from;
use crate::read::read_job;
use crate::tool::Tool;
use std::alloc::Global;

/// What a first word names.
#[derive(Clone, Copy)]
enum Named {
    Tool(Tool),
    Sample,
    Nothing,
}

/// What this first word names.
fn first_word(word: &str) -> Named
    ensures { IsNamed word.now result }
{
    match word {
        "dvips" => Named::Tool(Tool::Dvips),
        "dvitype" => Named::Tool(Tool::Dvitype),
        "dvicopy" => Named::Tool(Tool::Dvicopy),
        "sample" => Named::Sample,
        _ => Named::Nothing,
    }
}

/// The same fault one word further.
fn behind(fault: WordFault) -> WordFault
    requires { IsBelow fault (2 ^ 64 - 1) }
    ensures { result ≡ behind fault }
{
    match fault {
        WordFault::Bad { index } => WordFault::Bad { index: index + 1 },
        WordFault::OutOfMemory => WordFault::OutOfMemory,
    }
}

/// Reads the words of a run. The first one names the tool.
pub fn read_words(alloc: Global, words: &[String]) -> Result<Job, WordFault>
    ensures job { IfOk result (λ job. Asks (map string_bytes words.now) (job_view job)) }
    ensures fault { IfErr result (IsFault (map string_bytes words.now)) }
{
    if words.is_empty() {
        return Err(WordFault::Bad { index: 0 });
    }
    let (_, rest) = words.split_at(1);
    match first_word(words[0].as_str()) {
        Named::Nothing => Err(WordFault::Bad { index: 0 }),
        Named::Sample => match read_sample(rest) {
            Ok(pages) => Ok(Job::Sample { pages }),
            Err(index) => Err(WordFault::Bad { index: index + 1 }),
        },
        Named::Tool(tool) => match read_job(alloc, tool, rest) {
            Ok(job) => Ok(job),
            Err(fault) => Err(behind(fault)),
        },
    }
}

/// Reads the words of a sample that follow its name.
fn read_sample(words: &[String]) -> Result<u32, usize>
    ensures asks { IfOk result (SampleWords (map string_bytes words.now)) }
    ensures cause { IfErr result (IsWrongAt HasSample (map string_bytes words.now)) }
{
    if words.is_empty() {
        return Err(0);
    }
    let Some(pages) = number_from(words[0].as_str().as_bytes(), 1, 1_000) else {
        return Err(0);
    };
    if words.len() > 1 {
        return Err(1);
    }
    Ok(pages)
}
