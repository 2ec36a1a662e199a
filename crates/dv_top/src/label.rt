//! The number by which TeX calls a page.
ghost use Rattle.std.specs.Prelude.{◌≡◌, ◌≤◌, ◌^◌, unsigned_abs};
ghost use Rattle.dv_top.specs.Printing.{label_of};

use dvi_doc::Page;

/// Count 0 of a page.
pub fn label(page: &Page) -> i32
    ensures value { result ≡ label_of page.now.counts }
    ensures small { unsigned_abs (label_of page.now.counts) ≤ 2 ^ 31 }
{
    page.counts[0]
}
