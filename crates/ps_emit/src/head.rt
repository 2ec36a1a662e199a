//! The lines before the first page and behind the last. Each function makes them of a line that may hold anything before.
ghost use Rattle.std.specs.Prelude.{◌≡◌, ◌≤◌, ◌+◌, ◌++◌, length};
ghost use Rattle.ps_subset.specs.Lines.{comment_line};
ghost use Rattle.ps_emit.specs.Setup.{head_text, job_text, points_up, trailer_of};

use crate::setup::Setup;
use dv_base::Line;

/// A length in scaled points as whole points of PostScript, rounded up.
fn points_up(length: i64) -> u128
    ensures { result ≡ points_up length }
{
    (u128::from(length.unsigned_abs()) * 7200).div_ceil(473_628_672)
}

/// Appends a structured comment and its line end, where there are comments.
fn comment(line: &mut Line, comments: bool, text: &[u8])
    requires { length line.old + length text.now + 1 ≤ 1024 }
    ensures value { line.new ≡ line.old ++ comment_line comments text.now }
    ensures len { length line.new ≤ length line.old + length text.now + 1 }
{
    if comments {
        line.text(text);
        line.text(b"\n");
    }
}

/// The comments at the head of a text, and the one before the prolog.
pub fn head(line: &mut Line, comments: bool, setup: &Setup)
    ensures { line.new ≡ head_text comments setup.now }
{
    line.clear();
    if !comments {
        line.text(b"%!PS\n");
        return;
    }
    line.text(b"%!PS-Adobe-2.0\n%%Creator: texdvi\n%%Title: ");
    line.text(setup.title.as_str().as_bytes());
    line.text(b"\n%%Pages: ");
    line.number(setup.pages);
    line.text(b"\n%%BoundingBox: 0 0 ");
    line.field(points_up(setup.paper.0));
    line.number(points_up(setup.paper.1));
    line.text(b"\n%%EndComments\n%%BeginProlog\n");
}

/// What stands between the prolog and the first section: the number of copies and the numbers of the page.
pub fn job(line: &mut Line, comments: bool, setup: &Setup)
    ensures { line.new ≡ job_text comments setup.now }
{
    line.clear();
    comment(line, comments, b"%%EndProlog");
    comment(line, comments, b"%%BeginSetup");
    line.text(b"/#copies ");
    line.field(setup.copies);
    line.text(b"def\nTeXDict begin\n");
    line.field(setup.paper.1);
    line.field(setup.dpi.0);
    line.field(setup.dpi.1);
    line.field(setup.origin.0);
    line.field(setup.origin.1);
    line.text(b"TS\n");
    comment(line, comments, b"%%EndSetup");
}

/// What stands behind the last section.
pub fn trailer(line: &mut Line, comments: bool)
    ensures { line.new ≡ trailer_of comments }
{
    line.clear();
    comment(line, comments, b"%%Trailer");
    line.text(b"end\n");
    comment(line, comments, b"%%EOF");
}
