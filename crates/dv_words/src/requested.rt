//! From what has been read to a job.
ghost use Rattle.std.specs.Prelude.{◌≡◌, None, MatchOption};
ghost use Rattle.dv_base.specs.FileName.{text_of};
ghost use Rattle.dv_words.specs.Jobs.{HasJob, copy_job, list_job, number_in, print_job, windows_in};
ghost use Rattle.dv_words.specs.JobView.{copy_view, job_view, list_view, print_view};
ghost use Rattle.dv_words.specs.Views.{draft_view};

use crate::draft::{Bound, Draft};
use crate::job::{CopyJob, Job, ListJob, PrintJob};
use crate::names::Names;
use crate::pages::{Window, WindowList, Windows};
use crate::tool::Tool;
use crate::word::{printed_name, stream};
use dv_base::FileName;

/// Without a limit, all pages of the longest document that is listed, copied or printed.
const MOST_PAGES: u32 = 1_000_000;

fn number(bound: Option<Bound>) -> Option<i64>
    ensures { result ≡ number_in bound }
{
    Some(bound?.number)
}

/// The pages of these ranges, or, where there are none, between these bounds.
fn windows(ranges: Vec<Window>, first: Option<Bound>, last: Option<Bound>) -> Windows
    ensures { result ≡ windows_in ranges.items first last }
{
    if !ranges.is_empty() {
        return Windows::Many(WindowList(ranges));
    }
    match (first, last) {
        (None, None) => Windows::All,
        (Some(first), None) => Windows::One {
            first: Some(first.number),
            last: None,
            physical: first.physical,
        },
        (None, Some(last)) => Windows::One {
            first: None,
            last: Some(last.number),
            physical: last.physical,
        },
        (Some(first), Some(last)) => Windows::One {
            first: Some(first.number),
            last: Some(last.number),
            physical: first.physical || last.physical,
        },
    }
}

impl Draft {
    /// The job of what has been read; `None` where there is no input.
    pub fn into_job(self, tool: Tool) -> Option<Job>
        ensures { MatchOption result ((draft_view self).input ≡ None) (λ job. HasJob tool (draft_view self) (job_view job)) }
    {
        let input = self.input?;
        match tool {
            Tool::Dvips => Some(Job::Print(self.into_print_job(input))),
            Tool::Dvitype => Some(Job::List(self.into_list_job(input))),
            Tool::Dvicopy => Some(Job::Copy(self.into_copy_job(input))),
        }
    }

    fn into_print_job(self, input: FileName) -> PrintJob
        ensures { print_view result ≡ print_job (text_of input) (draft_view self) }
    {
        let printed = printed_name(&input);
        PrintJob {
            input,
            output: self.output.unwrap_or(printed),
            windows: windows(self.ranges, self.first, self.last),
            limit: self.limit,
            reverse: self.reverse,
            parity: self.parity,
            copies: self.copies,
            collated: self.collated,
            mag: self.magnification,
            dpi: (self.across.unwrap_or(600), self.down.unwrap_or(600)),
            per_section: self.per_section,
            headers: Names(self.headers),
            quiet: self.quiet,
            comments: self.comments,
            paper: self.paper,
            offset: self.offset,
            drift: self.drift,
            memory: self.memory,
            pass_ps: self.pass_ps,
        }
    }

    fn into_list_job(self, input: FileName) -> ListJob
        ensures { list_view result ≡ list_job (text_of input) (draft_view self) }
    {
        ListJob {
            input,
            start: number(self.first),
            most: self.limit.unwrap_or(MOST_PAGES),
            dpi: self.across.unwrap_or(300),
            mag: self.magnification,
            detail: self.detail,
        }
    }

    fn into_copy_job(self, input: FileName) -> CopyJob
        ensures { copy_view result ≡ copy_job (text_of input) (draft_view self) }
    {
        CopyJob {
            input,
            output: self.output.unwrap_or(stream()),
            start: number(self.first),
            most: self.limit.unwrap_or(MOST_PAGES),
            mag: self.magnification,
        }
    }
}
