//! Commands spelled in place.
ghost use Rattle.std.specs.Prelude.{◌≡◌, ◌≤◌, ◌+◌, ◌++◌, [], length, pos};
ghost use Rattle.dvi_ops.specs.Command.Command.{Set};
ghost use Rattle.dvi_ops.specs.View.{view};
ghost use Rattle.dvi_ops.specs.Shortest.{CanBePut, shortest};

use arrayvec::ArrayVec;
use dvi_ops::{Cmd, CmdBytes, put_cmd};
use std::marker::Model;

/// The commands of one mark, one after another, without the texts that go out as they are. It is kept in place and needs no memory.
#[derive(Drop)]
pub struct Script {
    bytes: ArrayVec<u8, 4096>,
    command: CmdBytes,
}

impl Model for Script {
    ghost use Rattle.std.specs.Prelude.{ℕ, List};

    ghost Value = { List ℕ };

    ghost view = { λ s. s.bytes.items };
}

impl Script {
    /// A script without bytes.
    pub fn new() -> Script
        ensures { result ≡ [] }
    {
        Script {
            bytes: ArrayVec::new(),
            command: CmdBytes::new(),
        }
    }

    /// Begins anew.
    pub fn clear(&mut self)
        ensures { self.new ≡ [] }
    {
        self.bytes.clear();
    }

    /// Appends a command in its shortest spelling, without a special's or a comment's bytes.
    pub fn command(&mut self, cmd: &Cmd<'_>)
        requires put { CanBePut (view cmd.now) }
        requires room { length self.old + 540 ≤ 4096 }
        ensures value { self.new ≡ self.old ++ shortest (view cmd.now) }
        ensures len { length self.new ≤ length self.old + 540 }
    {
        put_cmd(cmd, &mut self.command);
        match self.bytes.try_extend_from_slice(self.command.as_slice()) {
            Ok(()) => {}
            Err(_) => unreachable!(),
        }
    }

    /// Appends the setting of a character, in its shortest spelling.
    // Most characters are one byte: no command is made of these.
    #[inline(always)]
    #[tactic(auto, unfolding(dvi_ops::specs::Shortest::shortest))]
    pub fn set(&mut self, code: u8)
        requires { length self.old + 540 ≤ 4096 }
        ensures value { self.new ≡ self.old ++ shortest (Set (pos code)) }
        ensures len { length self.new ≤ length self.old + 540 }
    {
        if code < 128 {
            self.bytes.push(code);
        } else {
            self.command(&Cmd::Set(i64::from(code)));
        }
    }

    /// Lends the bytes.
    pub fn as_slice(&self) -> &[u8]
        ensures { result.now ≡ self.now }
    {
        self.bytes.as_slice()
    }
}
