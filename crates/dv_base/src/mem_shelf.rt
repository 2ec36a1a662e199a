//! A shelf in memory.
ghost use Rattle.std.specs.Prelude.{◌≡◌, ◌+◌, ◌-◌, ◌^◌, min, Some, None, [], ◌∷◌, ◌++◌, length, IfSome, MatchOption, MatchBool, OnOk, OnErr, option_copied};
ghost use Rattle.dv_base.specs.MemShelf.{find_file};

use crate::shelf::{Got, Shelf};
use std::alloc::{AllocError, Global};

#[derive(Drop)]
struct File {
    name: String,
    bytes: Vec<u8>,
}

/// Files in memory, for tests and for documents that a run makes itself.
///
/// It tells all that it holds, and fails only at the calls that [`MemShelf::fail_at`] names. The newest file stands first, so that
/// it hides an older one of its name.
#[derive(Drop)]
pub struct MemShelf {
    alloc: Global,
    files: Vec<File>,
    calls: u64,
    fails: Vec<u64>,
    faults: u64,
    absents: u64,
    overs: u64,
}

/// The bytes of the first file of the name.
fn find<'a>(files: &'a [File], name: &str) -> Option<&'a [u8]>
    ensures { option_copied result ≡ find_file files.now name.now }
{
    for file in files {
        if file.name.as_str() == name {
            return Some(file.bytes.as_slice());
        }
    }
    None
}

impl MemShelf {
    ghost use Rattle.dv_base.specs.MemShelf.{Puts, held_of, planned_of, told_of};

    /// A shelf without files.
    pub fn new(alloc: Global) -> MemShelf
        ensures nothing { told_of result ≡ record { held = Some (λ name. None); faults = 0; absents = 0; overs = 0 } }
        ensures unplanned { planned_of result ≡ record { calls = 0; fails = [] } }
    {
        MemShelf {
            alloc,
            files: Vec::new(alloc),
            calls: 0,
            fails: Vec::new(alloc),
            faults: 0,
            absents: 0,
            overs: 0,
        }
    }

    /// Puts a file on the shelf, in place of one that has the name already.
    pub fn add(&mut self, name: &str, bytes: &[u8]) -> Result<(), AllocError>
        ensures puts { OnOk result (Puts name.now bytes.now (held_of self.old) (held_of self.new)) }
        ensures counts { OnOk result (told_of self.new ≡ record (told_of self.old) { held = Some (held_of self.new) }) }
        ensures err { OnErr result (told_of self.new ≡ told_of self.old) }
        ensures plan { planned_of self.new ≡ planned_of self.old }
    {
        let name = String::from_str(self.alloc, name)?;
        let bytes = Vec::from_slice(self.alloc, bytes)?;
        self.files.insert(0, File { name, bytes })?;
        Ok(())
    }

    /// The call of `get` with that number, counted from 1, answers `Failed`.
    pub fn fail_at(&mut self, call: u32) -> Result<(), AllocError>
        ensures ok { OnOk result (planned_of self.new ≡ record (planned_of self.old) { fails = (planned_of self.old).fails ++ call ∷ [] }) }
        ensures err { OnErr result (planned_of self.new ≡ planned_of self.old) }
        ensures told { told_of self.new ≡ told_of self.old }
    {
        self.fails.push(u64::from(call))?;
        Ok(())
    }
}

impl Shelf for MemShelf {
    ghost use Rattle.dv_base.specs.Shelf.{CountsBy, GetGives, Keeps};
    ghost use Rattle.dv_base.specs.MemShelf.{FailsAsPlanned, Answers, planned_of, told_of};

    ghost told = { told_of };

    fn get(&mut self, alloc: Global, name: &str, limit: u32) -> Got
        ensures gives { GetGives name.now limit result (told_of self.old) (told_of self.new) }
        ensures keeps { Keeps (told_of self.old) (told_of self.new) }
        ensures others { CountsBy result (told_of self.old) (told_of self.new) }

        // It fails at the calls that were named, and at no other.
        ensures fails { FailsAsPlanned (planned_of self.old) result (told_of self.old) (told_of self.new) }
        ensures counts { Answers (planned_of self.old) (planned_of self.new) }
    {
        self.calls = self.calls.saturating_add(1);
        if self.fails.contains(&self.calls) {
            self.faults = self.faults.saturating_add(1);
            return Got::Failed;
        }
        let Some(bytes) = find(&self.files, name) else {
            self.absents = self.absents.saturating_add(1);
            return Got::Absent;
        };
        if bytes.len() > limit as usize {
            self.overs = self.overs.saturating_add(1);
            return Got::TooLong;
        }
        match Vec::from_slice(alloc, bytes) {
            Ok(copy) => Got::Bytes(copy),
            Err(_) => Got::OutOfMemory,
        }
    }
}
