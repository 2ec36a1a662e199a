//! The preamble.
ghost use Rattle.std.specs.Prelude.{◌≡◌, ◌≤◌, ◌^◌, IfOk, IfErr, length};
ghost use Rattle.dvi_ops.specs.Command.Command.{Pre};
ghost use Rattle.dvi_ops.specs.View.{head_view};
ghost use Rattle.dvi_doc.specs.Order.{SpelledTo};
ghost use Rattle.dvi_doc.specs.Faults.{FaultIn};

use crate::fault::DocFault;
use dvi_ops::{Cmd, Head, next_cmd, one_spelling};

/// The preamble at the front of the bytes, and the place behind it.
pub fn read_preamble(bytes: &[u8]) -> Result<(Head<'_>, usize), DocFault>
    ensures found { IfOk result (λ r. SpelledTo bytes.now 0 r.1 (Pre (head_view r.0)) × (r.0.id ≡ 2)) }
    ensures fault { IfErr result (FaultIn bytes.now) }
{
    one_spelling();
    if bytes.is_empty() {
        return Err(DocFault::NoPreamble);
    }
    match next_cmd(bytes, 0) {
        Ok((cmd, end)) => match cmd {
            Cmd::Pre(head) => {
                if head.id != 2 {
                    return Err(DocFault::BadId { at: 1 });
                }
                Ok((head, end))
            }
            _ => Err(DocFault::NoPreamble),
        },
        Err(_) => Err(DocFault::NoPreamble),
    }
}
