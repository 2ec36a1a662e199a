//! Text on its way to the tray.
ghost use Rattle.std.specs.Prelude.{◌≡◌, ◌<◌, ◌≤◌, ◌+◌, ◌++◌, [], ℕ, List, OnOk, OnErr, IfOk, length, vec_len, vec_capacity};
ghost use Rattle.dv_base.specs.Tray.{KeepsNames, Seen};
ghost use Rattle.dvitype_list.specs.Gathered.{Cut, Gathered};
ghost use Rattle.dvitype_list.specs.Texts.{escape_byte, escaped};

use crate::lines::hex_digit;
use dv_base::{Tray, WriteFault, write_all};
use std::alloc::{AllocError, Global};

/// How many bytes are gathered before they go out.
const ROOM: usize = 65_536;

/// The last bytes of a text, which are written when there is no room for more. Memory is taken once, when it is made.
#[derive(Drop)]
pub struct Gatherer {
    pub kept: Vec<u8>,
    ghost room: { 65536 ≤ vec_capacity kept },
}

impl Gatherer {
    /// No bytes yet.
    pub fn new(alloc: Global) -> Result<Gatherer, AllocError>
        ensures { IfOk result (λ g. g.kept.items ≡ []) }
    {
        let kept = Vec::with_capacity(alloc, ROOM)?;
        Ok(Gatherer { kept })
    }

    /// Writes what was gathered.
    pub fn send<T: Tray>(&mut self, tray: &mut T) -> Result<(), WriteFault>
        requires begun { 0 < (T.seen tray.old).begun }
        ensures ok { (first : Seen) (text : List ℕ) → Gathered first (T.seen tray.old) self.old.kept.items text → OnOk result (Gathered first (T.seen tray.new) [] text) }
        ensures cut { (first : Seen) (text : List ℕ) → Gathered first (T.seen tray.old) self.old.kept.items text → OnErr result (Cut first (T.seen tray.new) text) }
        ensures none { OnOk result (self.new.kept.items ≡ []) }
        ensures keeps { KeepsNames (T.seen tray.old) (T.seen tray.new) }
    {
        write_all(tray, &self.kept)?;
        self.kept.clear();
        Ok(())
    }

    /// Keeps a piece of text for which there is room.
    fn keep(&mut self, piece: &[u8])
        requires { vec_len self.old.kept + length piece.now ≤ 65536 }
        ensures { self.new.kept.items ≡ self.old.kept.items ++ piece.now }
    {
        match self.kept.extend_from_slice(piece) {
            Ok(()) => {}
            Err(_) => unreachable!(),
        }
    }

    /// Appends a piece of text.
    pub fn text<T: Tray>(&mut self, tray: &mut T, piece: &[u8]) -> Result<(), WriteFault>
        requires begun { 0 < (T.seen tray.old).begun }
        ensures ok { (first : Seen) (text : List ℕ) → Gathered first (T.seen tray.old) self.old.kept.items text → OnOk result (Gathered first (T.seen tray.new) self.new.kept.items (text ++ piece.now)) }
        ensures cut { (first : Seen) (text : List ℕ) → Gathered first (T.seen tray.old) self.old.kept.items text → OnErr result (Cut first (T.seen tray.new) (text ++ piece.now)) }
        ensures keeps { KeepsNames (T.seen tray.old) (T.seen tray.new) }
    {
        if self.kept.len() + piece.len() <= ROOM {
            self.keep(piece);
            return Ok(());
        }
        self.send(tray)?;
        if piece.len() <= ROOM {
            self.keep(piece);
            return Ok(());
        }
        write_all(tray, piece)
    }

    /// Appends a byte of a text that the file has.
    fn escaped_byte<T: Tray>(&mut self, tray: &mut T, byte: u8) -> Result<(), WriteFault>
        requires begun { 0 < (T.seen tray.old).begun }
        ensures ok { (first : Seen) (text : List ℕ) → Gathered first (T.seen tray.old) self.old.kept.items text → OnOk result (Gathered first (T.seen tray.new) self.new.kept.items (text ++ escape_byte byte)) }
        ensures cut { (first : Seen) (text : List ℕ) → Gathered first (T.seen tray.old) self.old.kept.items text → OnErr result (Cut first (T.seen tray.new) (text ++ escape_byte byte)) }
        ensures keeps { KeepsNames (T.seen tray.old) (T.seen tray.new) }
    {
        if 32 <= byte && byte <= 126 && byte != b'\\' {
            self.text(tray, &[byte])
        } else {
            self.text(tray, &[b'\\', hex_digit(byte / 16), hex_digit(byte % 16)])
        }
    }

    /// Appends a text that the file has: bytes 32 to 126 but for the backslash as they are, and each other one as a backslash and two
    /// hexadecimal digits.
    pub fn escaped<T: Tray>(&mut self, tray: &mut T, bytes: &[u8]) -> Result<(), WriteFault>
        requires begun { 0 < (T.seen tray.old).begun }
        ensures ok { (first : Seen) (text : List ℕ) → Gathered first (T.seen tray.old) self.old.kept.items text → OnOk result (Gathered first (T.seen tray.new) self.new.kept.items (text ++ escaped bytes.now)) }
        ensures cut { (first : Seen) (text : List ℕ) → Gathered first (T.seen tray.old) self.old.kept.items text → OnErr result (Cut first (T.seen tray.new) (text ++ escaped bytes.now)) }
        ensures keeps { KeepsNames (T.seen tray.old) (T.seen tray.new) }
    {
        for byte in bytes {
            self.escaped_byte(tray, *byte)?;
        }
        Ok(())
    }
}
