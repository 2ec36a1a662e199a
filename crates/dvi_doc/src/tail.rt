//! Whether `post` tells the file's numbers.
ghost use Rattle.std.specs.Prelude.{◌≡◌, ◌≤◌, ◌%◌, IfErr, OnOk};
ghost use Rattle.dvi_ops.specs.View.{head_view, tail_view};
ghost use Rattle.dvi_doc.specs.Grammar.{SameUnits};
ghost use Rattle.dvi_doc.specs.PartFaults.{TailFault};

use crate::fault::DocFault;
use dvi_ops::{Head, Tail};

/// That `post` counts so many pages, modulo 65536, and repeats the three numbers of `pre`.
pub fn check_tail(head: &Head<'_>, tail: &Tail, pages: usize) -> Result<(), DocFault>
    ensures same { OnOk result ((pages % 65536 ≡ tail.now.pages) × SameUnits (head_view head.now) (tail_view tail.now)) }
    ensures fault { IfErr result (TailFault (head_view head.now) (tail_view tail.now) pages) }
{
    let found = (pages % 65536) as u32;
    let told = tail.pages as u32;
    if found != told {
        return Err(DocFault::PageCount { found, told });
    }
    if tail.num != head.num || tail.den != head.den || tail.mag != head.mag {
        return Err(DocFault::PostDiffers);
    }
    Ok(())
}
