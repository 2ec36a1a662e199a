//! The parts of a file, in their order, before they are compared with one another.
ghost use Rattle.std.specs.Prelude.{◌≤◌, ◌^◌, length, IfOk, IfErr};
ghost use Rattle.dvi_doc.specs.Faults.{FaultIn};
ghost use Rattle.dvi_doc.specs.Steps.{FoundParts};

use crate::fault::DocFault;
use crate::found::Found;
use crate::front::read_preamble;
use crate::pages::{Body, read_pages};
use crate::postamble::read_postamble;
use crate::trailer::read_trailer;
use dvi_ops::{Head, one_spelling};
use std::alloc::Global;

/// The parts of a file.
#[derive(Drop)]
pub struct Parts<'a> {
    /// What `pre` says.
    pub head: Head<'a>,
    /// Pages and `post`.
    pub body: Body,
    /// The definitions behind `post`.
    pub fonts: Found<'a>,
}

/// Reads a file from its end and then from its start, up to its end again.
pub fn read_parts<'a>(alloc: Global, bytes: &'a [u8]) -> Result<Parts<'a>, DocFault>
    requires { length bytes.now ≤ 2 ^ 26 }
    ensures found { IfOk result (FoundParts bytes.now) }
    ensures fault { IfErr result (FaultIn bytes.now) }
{
    one_spelling();
    let (head, start) = read_preamble(bytes)?;
    // The trailer comes before what it ends: only it tells where the commands stop and the bytes 223 begin, which read from the
    // start would be a byte that begins a command.
    let (ends, back) = read_trailer(bytes)?;
    if start > ends {
        return Err(DocFault::BadOrder { at: ends as u32 });
    }
    let body = read_pages(alloc, bytes, start, ends)?;
    let (post, next) = (body.post, body.next);
    let fonts = read_postamble(alloc, bytes, next, ends)?;
    if back as usize != post {
        return Err(DocFault::BadPostPointer { at: ends as u32 });
    }
    Ok(Parts { head, body, fonts })
}
