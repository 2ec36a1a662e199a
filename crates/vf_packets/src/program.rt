//! The commands of a packet.
ghost use Rattle.std.specs.Prelude.{MatchBool};
ghost use Rattle.dvi_ops.specs.View.{view};
ghost use Rattle.vf_packets.specs.Programs.{IsAllowed, IsProgram};

use dvi_ops::{Cmd, next_cmd, one_spelling, pass};

/// Whether a packet may hold the command.
fn is_allowed(cmd: &Cmd<'_>) -> bool
    ensures { MatchBool result (IsAllowed (view cmd.now)) (IsAllowed (view cmd.now) → ⊥) }
{
    match cmd {
        Cmd::Bop { .. } => false,
        Cmd::Eop => false,
        Cmd::FntDef(_) => false,
        Cmd::Pre(_) => false,
        Cmd::Post(_) => false,
        Cmd::PostPost { .. } => false,
        _ => true,
    }
}

/// Whether the bytes are whole commands, one after another, that a packet may hold.
pub fn is_program(bytes: &[u8]) -> bool
    ensures { MatchBool result (IsProgram bytes.now) (IsProgram bytes.now → ⊥) }
{
    one_spelling();
    let mut at = 0;
    'commands: while at < bytes.len() {
        if let Some(next) = pass(bytes, at) {
            at = next;
            continue;
        }
        match next_cmd(bytes, at) {
            Ok((cmd, next)) => {
                if !is_allowed(&cmd) {
                    return false;
                }
                at = next;
            }
            Err(_) => return false,
        }
    }
    true
}
