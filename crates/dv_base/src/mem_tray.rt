//! A tray in memory.
ghost use Rattle.std.specs.Prelude.{◌≡◌, ◌≤◌, ◌<◌, ◌+◌, ◌-◌, ◌^◌, ℕ, IfOk, IfSome, MatchOption, OnOk, OnErr, Some, None, [], ◌∷◌, ◌++◌, length, vec_len, vec_capacity, false, option_map, option_copied};
ghost use Rattle.dv_base.specs.Messages.{lines_of, room_of, texts_of};

use crate::tray::{Begun, Put, Tray};
use std::alloc::{AllocError, Global};

/// Keeps one output and the messages, each in room that was reserved at once.
///
/// It tells all that it took. A message for which there is no room is dropped, and from then on the messages aren't told.
#[derive(Drop)]
pub struct MemTray {
    name: Option<String>,
    bytes: Vec<u8>,
    capacity: usize,
    chunk: usize,
    writes: u64,
    fails: Vec<u64>,
    said: Vec<u8>,
    lengths: Vec<usize>,
    says: usize,
    is_lost: bool,
    faults: u64,
    ghost output_room: { capacity ≤ vec_capacity bytes },
    ghost output_fits: { vec_len bytes ≤ capacity },
    ghost says_room: { says ≤ vec_capacity said },
    ghost says_fit: { vec_len said ≤ says },
    ghost lengths_room: { says ≤ vec_capacity lengths },
    ghost lengths_fit: { vec_len lengths ≤ vec_len said },
    ghost some: { 1 ≤ chunk },
    ghost fresh: { name ≡ None → bytes.items ≡ [] },
    ghost cut: { room_of lengths.items ≡ length said.items },
    ghost lines: { lines_of (texts_of lengths.items said.items) ≡ said.items },
}

/// Appends bytes for which there is room.
fn append(buffer: &mut Vec<u8>, bytes: &[u8])
    requires { vec_len buffer.old + length bytes.now ≤ vec_capacity buffer.old }
    ensures items { buffer.new.items ≡ buffer.old.items ++ bytes.now }
    ensures len { vec_len buffer.new ≡ vec_len buffer.old + length bytes.now }
    ensures room { vec_capacity buffer.old ≤ vec_capacity buffer.new }
{
    match buffer.extend_from_slice(bytes) {
        Ok(()) => {}
        Err(_) => unreachable!(),
    }
}

/// Appends a length for which there is room.
fn append_length(lengths: &mut Vec<usize>, length: usize)
    requires { vec_len lengths.old + 1 ≤ vec_capacity lengths.old }
    ensures items { lengths.new.items ≡ lengths.old.items ++ length ∷ [] }
    ensures len { vec_len lengths.new ≡ vec_len lengths.old + 1 }
    ensures room { vec_capacity lengths.old ≤ vec_capacity lengths.new }
{
    match lengths.push(length) {
        Ok(()) => {}
        Err(_) => unreachable!(),
    }
}

impl MemTray {
    ghost use Rattle.dv_base.specs.MemTray.{bytes_of, name_of, planned_of, seen_of};

    /// A tray for one output of at most `capacity` bytes and for messages of at most `says` bytes, their line ends counted.
    pub fn new(alloc: Global, capacity: usize, says: usize) -> Result<MemTray, AllocError>
        ensures nothing { IfOk result (λ tray. seen_of tray ≡ record { outputs = Some []; messages = Some []; begun = 0; last = None; faults = 0 }) }
        ensures planned { IfOk result (λ tray. planned_of tray ≡ record { capacity = capacity; says = says; chunk = 2 ^ 64 - 1; writes = 0; fails = [] }) }
    {
        let bytes = Vec::with_capacity(alloc, capacity)?;
        let said = Vec::with_capacity(alloc, says)?;
        let lengths = Vec::with_capacity(alloc, says)?;
        Ok(MemTray {
            name: None,
            bytes,
            capacity,
            chunk: usize::MAX,
            writes: 0,
            fails: Vec::new(alloc),
            said,
            lengths,
            says,
            is_lost: false,
            faults: 0,
        })
    }

    /// The write with that number, counted from 1, answers `Failed`.
    pub fn fail_at(&mut self, call: u32) -> Result<(), AllocError>
        ensures ok { OnOk result (planned_of self.new ≡ record (planned_of self.old) { fails = (planned_of self.old).fails ++ call ∷ [] }) }
        ensures err { OnErr result (planned_of self.new ≡ planned_of self.old) }
        ensures seen { seen_of self.new ≡ seen_of self.old }
    {
        self.fails.push(u64::from(call))?;
        Ok(())
    }

    /// From now on each write takes at most `most` bytes.
    pub fn chunk(&mut self, most: usize)
        requires { 1 ≤ most }
        ensures planned { planned_of self.new ≡ record (planned_of self.old) { chunk = most } }
        ensures seen { seen_of self.new ≡ seen_of self.old }
    {
        self.chunk = most;
    }

    /// The name of the output, `None` exactly where none has been begun.
    pub fn name(&self) -> Option<&str>
        ensures { option_copied result ≡ (seen_of self.now).last }
    {
        match &self.name {
            Some(name) => Some(name.as_str()),
            None => None,
        }
    }

    /// The bytes of the output.
    pub fn written(&self) -> &[u8]
        ensures { result.now ≡ bytes_of self.now }
    {
        self.bytes.as_slice()
    }

    /// The messages, each with a line end behind it.
    pub fn said(&self) -> &[u8]
        ensures { IfSome (seen_of self.now).messages (λ texts. result.now ≡ lines_of texts) }
    {
        self.said.as_slice()
    }
}

impl Tray for MemTray {
    ghost use Rattle.dv_base.specs.Tray.{BeginGives, KeepsNames, Says, WriteGives};
    ghost use Rattle.dv_base.specs.MemTray.{AnswersWrite, IsBeginFault, IsSecond, IsWriteFault, answer_of, bytes_of, messages_after, name_of, planned_of, seen_of};

    ghost seen = { seen_of };

    fn begin(&mut self, alloc: Global, name: &str) -> Begun
        ensures gives { BeginGives name.now result (seen_of self.old) (seen_of self.new) }
        ensures messages { (seen_of self.new).messages ≡ (seen_of self.old).messages }
        ensures later { (seen_of self.old).faults ≤ (seen_of self.new).faults }
        ensures second { IsSecond (name_of self.old) result }
        ensures plan { planned_of self.new ≡ planned_of self.old }
        ensures faults { IsBeginFault result (seen_of self.old).faults (seen_of self.new).faults }
    {
        if self.name.is_some() {
            self.faults = self.faults.saturating_add(1);
            return Begun::Failed;
        }
        match String::from_str(alloc, name) {
            Ok(copy) => {
                self.name = Some(copy);
                Begun::Ready
            }
            Err(_) => Begun::OutOfMemory,
        }
    }

    fn write(&mut self, piece: &[u8]) -> Put
        requires { 0 < (seen_of self.old).begun }
        ensures gives { WriteGives piece.now result (seen_of self.old) (seen_of self.new) }
        ensures keeps { KeepsNames (seen_of self.old) (seen_of self.new) }
        ensures answer { result ≡ answer_of (planned_of self.old) (length (bytes_of self.old)) (length piece.now) }
        ensures plan { AnswersWrite (planned_of self.old) (planned_of self.new) }
        ensures faults { IsWriteFault result (seen_of self.old).faults (seen_of self.new).faults }
    {
        self.writes = self.writes.saturating_add(1);
        let taken = piece.len().min(self.chunk);
        if self.fails.contains(&self.writes) || self.capacity - self.bytes.len() < taken {
            self.faults = self.faults.saturating_add(1);
            return Put::Failed;
        }
        append(&mut self.bytes, &piece[..taken]);
        Put::Took(taken)
    }

    fn say(&mut self, text: &[u8])
        ensures says { Says text.now (seen_of self.old) (seen_of self.new) }
        ensures messages { (seen_of self.new).messages ≡ messages_after (planned_of self.old).says text.now (seen_of self.old).messages }
        ensures plan { planned_of self.new ≡ planned_of self.old }
    {
        if self.says - self.said.len() <= text.len() {
            self.is_lost = true;
            return;
        }
        append(&mut self.said, text);
        append(&mut self.said, b"\n");
        append_length(&mut self.lengths, text.len());
    }
}
