//! A line that is put together before it goes out.
ghost use Rattle.std.specs.Prelude.{◌≡◌, ◌≤◌, ◌+◌, ◌++◌, [], ◌∷◌, length};

use arrayvec::ArrayVec;
use itoa::{Buffer, Integer};
use std::marker::Model;

/// A line, or a few of them, of at most 1,024 bytes, put together in place so that it needs no memory.
#[derive(Drop)]
pub struct Line {
    bytes: ArrayVec<u8, 1024>,
}

impl Model for Line {
    ghost use Rattle.std.specs.Prelude.{ℕ, List};

    ghost Value = { List ℕ };

    ghost view = { λ l. l.bytes.items };
}

impl Line {
    /// A line without bytes.
    pub fn new() -> Line
        ensures { result ≡ [] }
    {
        Line {
            bytes: ArrayVec::new(),
        }
    }

    /// Lets go of the bytes: the line begins anew.
    pub fn clear(&mut self)
        ensures { self.new ≡ [] }
    {
        self.bytes.clear();
    }

    /// Appends a text.
    pub fn text(&mut self, text: &[u8])
        requires { length self.old + length text.now ≤ 1024 }
        ensures value { self.new ≡ self.old ++ text.now }
        ensures len { length self.new ≡ length self.old + length text.now }
    {
        match self.bytes.try_extend_from_slice(text) {
            Ok(()) => {}
            Err(_) => unreachable!(),
        }
    }

    /// Appends a number in decimal.
    pub fn number<I: Integer>(&mut self, number: I)
        requires { length self.old + 40 ≤ 1024 }
        ensures value { self.new ≡ self.old ++ I.text number }
        ensures len { length self.new ≤ length self.old + 40 }
    {
        let mut buffer = Buffer::new();
        self.text(buffer.format(number).as_bytes());
    }

    /// Appends a number and a space.
    pub fn field<I: Integer>(&mut self, number: I)
        requires { length self.old + 41 ≤ 1024 }
        ensures value { self.new ≡ self.old ++ (I.text number ++ 32 ∷ []) }
        ensures len { length self.new ≤ length self.old + 41 }
    {
        self.number(number);
        self.text(b" ");
    }

    /// Lends the bytes.
    pub fn as_slice(&self) -> &[u8]
        ensures { result.now ≡ self.now }
    {
        self.bytes.as_slice()
    }
}
