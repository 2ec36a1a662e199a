//! Where outputs and messages go.
ghost use Rattle.std.specs.Prelude.{◌≡◌, ◌<◌, ◌≤◌, OnErr, OnOk};
ghost use Rattle.dv_base.specs.Causes.{Rose};
ghost use Rattle.dv_base.specs.Tray.{Appends, AppendsFront, BeginGives, KeepsNames, Says, Seen, WhereTold, WriteGives};

use std::alloc::Global;

/// What a tray answers to `begin`.
#[derive(Clone, Copy, Debug, PartialEq, Eq)]
pub enum Begun {
    /// An output without bytes has been begun.
    Ready,
    Failed,
    OutOfMemory,
}

/// What a tray answers to `write`.
#[derive(Clone, Copy, Debug, PartialEq, Eq)]
pub enum Put {
    /// The first so many bytes of the piece were taken: at least one, where it has any.
    Took(usize),
    /// Nothing was taken.
    Failed,
}

/// The tray has failed.
#[derive(Clone, Copy, Debug, PartialEq, Eq)]
pub struct WriteFault;

/// Where a run puts its output and its messages.
///
/// A tray tells the bytes and the messages that it took, or, where it is the outside world, nothing of them. It always tells how
/// many outputs were begun and the name of the last one, and it counts its faults.
pub trait Tray {
    ghost seen: { Self → Seen };

    /// Begins an output of that name.
    fn begin(&mut self, alloc: Global, name: &str) -> Begun
        ensures gives { BeginGives name.now result (seen self.old) (seen self.new) }
        ensures messages { (seen self.new).messages ≡ (seen self.old).messages }
        ensures later { (seen self.old).faults ≤ (seen self.new).faults };

    /// Appends bytes to the output that was begun last.
    fn write(&mut self, piece: &[u8]) -> Put
        requires { 0 < (seen self.old).begun }
        ensures gives { WriteGives piece.now result (seen self.old) (seen self.new) }
        ensures keeps { KeepsNames (seen self.old) (seen self.new) };

    /// Says one message, a text without its line end. One that can't be said changes nothing else.
    fn say(&mut self, text: &[u8])
        ensures { Says text.now (seen self.old) (seen self.new) };
}

/// Writes all of a text, by as many calls of `write` as it takes.
pub fn write_all<T: Tray>(tray: &mut T, text: &[u8]) -> Result<(), WriteFault>
    requires { 0 < (T.seen tray.old).begun }
    ensures all { OnOk result (WhereTold (Appends text.now) (T.seen tray.old).outputs (T.seen tray.new).outputs) }
    ensures front { OnErr result (WhereTold (AppendsFront text.now) (T.seen tray.old).outputs (T.seen tray.new).outputs) }
    ensures failed { OnErr result (Rose (T.seen tray.old).faults (T.seen tray.new).faults) }
    ensures keeps { KeepsNames (T.seen tray.old) (T.seen tray.new) }
{
    let mut at = 0;
    while at < text.len() {
        match tray.write(&text[at..]) {
            Put::Took(n) => at += n,
            Put::Failed => return Err(WriteFault),
        }
    }
    Ok(())
}
