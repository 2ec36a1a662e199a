//! The end of a file: `post_post` and the bytes 223 that fill it up.
ghost use Rattle.std.specs.Prelude.{◌≡◌, ◌≤◌, ◌<◌, ◌+◌, ◌^◌, IfOk, IfErr, length};
ghost use Rattle.dvi_ops.specs.Command.Command.{PostPost};
ghost use Rattle.dvi_doc.specs.Order.{SpelledTo};
ghost use Rattle.dvi_doc.specs.Faults.{TrailerAt, FaultIn};
ghost use Rattle.dvi_doc.specs.PartFaults.{FillsFrom};

use crate::fault::DocFault;
use byteorder::{BigEndian, ByteOrder};

/// The byte that fills a file up.
const FILL: u8 = 223;
/// The operation byte of `post_post`.
const POST_POST: u8 = 249;
/// The version of the format.
const VERSION: u8 = 2;

/// Where the bytes 223 begin that the bytes end with.
fn filling_start(bytes: &[u8]) -> usize
    ensures { FillsFrom bytes.now result }
{
    let mut at = bytes.len();
    while at > 0 && bytes[at - 1] == FILL {
        at -= 1;
    }
    at
}

/// The place of the trailer's `post_post`, and the pointer in it.
pub fn read_trailer(bytes: &[u8]) -> Result<(usize, u32), DocFault>
    requires { length bytes.now ≤ 2 ^ 26 }
    ensures found { IfOk result (λ r. TrailerAt bytes.now r.0 × SpelledTo bytes.now r.0 (r.0 + 6) (PostPost r.1 2)) }
    ensures fault { IfErr result (FaultIn bytes.now) }
{
    let whole = filling_start(bytes);
    if bytes.len() - whole < 4 || whole < 6 || bytes[whole - 6] != POST_POST {
        return Err(DocFault::NoTrailer);
    }
    let at = whole - 6;
    if bytes[at + 5] != VERSION {
        return Err(DocFault::BadId {
            at: (at + 5) as u32,
        });
    }
    Ok((at, BigEndian::read_u32(&bytes[at + 1..])))
}
