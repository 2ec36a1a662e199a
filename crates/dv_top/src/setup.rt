//! What the head of a text says of its job.
ghost use Rattle.std.specs.Prelude.{◌≡◌, ◌≤◌, ◌<◌, ◌^◌, ◌*◌, unsigned_abs};
ghost use Rattle.dv_base.specs.Rounding.{half_up, rounded};
ghost use Rattle.dv_words.specs.JobView.{print_view};
ghost use Rattle.dv_top.specs.Asked.{IsGoodJob};
ghost use Rattle.dv_top.specs.Printing.{IsSetupOf, origin_at};

use dv_words::PrintJob;
use ps_emit::Setup;

/// Scaled points of an inch, times 100.
const INCH: u64 = 473_628_672;

/// A length in scaled points, in pixels at a resolution, the nearest whole number.
fn near(length: u64, dpi: u32) -> u64
    requires length { length < 2 ^ 31 }
    requires dpi { dpi ≤ 10000 }
    ensures value { result ≡ half_up (record { top = dpi * 100; bottom = 473628672 }) length }
    ensures small { result < 2 ^ 50 }
{
    let dots = u64::from(dpi) * 100;
    (2 * length * dots + INCH) / (2 * INCH)
}

/// A distance in scaled points, in pixels at a resolution, the nearest whole number.
fn pixels(distance: i64, dpi: u32) -> i64
    requires distance { unsigned_abs distance < 2 ^ 31 }
    requires dpi { dpi ≤ 10000 }
    ensures value { result ≡ rounded (record { top = dpi * 100; bottom = 473628672 }) distance }
    ensures small { unsigned_abs result < 2 ^ 50 }
{
    let pixels = near(distance.unsigned_abs(), dpi) as i64;
    if distance < 0 { -pixels } else { pixels }
}

/// The pixel of the origin: an inch from the paper's corner, and the offset.
fn origin(offset: i64, dpi: u32) -> i64
    requires offset { unsigned_abs offset < 2 ^ 31 }
    requires dpi { dpi ≤ 10000 }
    ensures { result ≡ origin_at offset dpi }
{
    i64::from(dpi) + pixels(offset, dpi)
}

/// The setup of a job with this paper and so many pages.
pub fn setup(job: &PrintJob, paper: (i64, i64), pages: u32) -> Setup
    requires job { IsGoodJob (print_view job.now) }
    ensures { IsSetupOf (print_view job.now) paper pages result }
{
    Setup {
        title: job.input,
        pages,
        paper,
        dpi: job.dpi,
        origin: (
            origin(job.offset.0, job.dpi.0),
            origin(job.offset.1, job.dpi.1),
        ),
        copies: job.copies,
    }
}
