//! The shelf of real files.
ghost use Rattle.std.specs.Prelude.{◌≡◌, ◌≤◌};
ghost use Rattle.dv_base.specs.Shelf.{IsWithin};

use crate::shelf::{Got, Shelf};
use std::alloc::Global;
use std::fs;
use std::fs::OpenFile;
use std::io::{ErrorKind, Read};
use std::rt::Files;

/// The name of standard input and of standard output.
pub(crate) const STANDARD: &str = "-";

/// Files of the current folder, and standard input under the name `-`.
///
/// This is the trusted edge: it tells nothing of what the files hold.
#[derive(Drop)]
pub struct FileShelf<'a, R: Files + Input> {
    rt: &'a R,
    faults: u64,
    absents: u64,
    overs: u64,
}

impl<'a, R: Files + Input> FileShelf<'a, R> {
    ghost use Rattle.dv_base.specs.FileShelf.{counted, told_of};

    pub fn new(rt: &'a R) -> FileShelf<'a, R>
        ensures { told_of result ≡ counted 0 0 0 }
    {
        FileShelf {
            rt,
            faults: 0,
            absents: 0,
            overs: 0,
        }
    }

    /// Reads a file, or says why not.
    fn read(&self, alloc: Global, name: &str, limit: u32) -> Got
        ensures { IsWithin limit result }
    {
        if name == STANDARD {
            return read_up_to(alloc, &mut self.rt.reader(), 0, limit);
        }
        match fs::open(self.rt, name) {
            Ok(mut file) => {
                let size = size_of(&file);
                read_up_to(alloc, &mut file, size, limit)
            }
            Err(error) if error.kind() == ErrorKind::NotFound => Got::Absent,
            Err(_) => Got::Failed,
        }
    }
}

/// How many bytes a file says that it has; 0 where it doesn't say. A pipe says 0, and a file may be written meanwhile.
fn size_of<F: OpenFile>(file: &F) -> u64 {
    match file.metadata() {
        Ok(found) => found.len(),
        Err(_) => 0,
    }
}

/// Reads to the end, but no more than `limit + 1` bytes: each turn takes at least one. There is room for `size` bytes at once, so that
/// they needn't be moved while more come.
fn read_up_to<F: Read>(alloc: Global, from: &mut F, size: u64, limit: u32) -> Got
    ensures { IsWithin limit result }
{
    let room = size.min(u64::from(limit)) as usize;
    let limit = limit as usize;
    let Ok(mut bytes) = Vec::with_capacity(alloc, room) else {
        return Got::OutOfMemory;
    };
    let mut block = [0; 16384];
    while bytes.len() <= limit {
        let most = (limit + 1 - bytes.len()).min(block.len());
        let taken = match from.read(&mut block[..most]) {
            Ok(0) => return Got::Bytes(bytes),
            Ok(taken) => taken,
            Err(_) => return Got::Failed,
        };
        if bytes.extend_from_slice(&block[..taken]).is_err() {
            return Got::OutOfMemory;
        }
    }
    Got::TooLong
}

impl<R: Files + Input> Shelf for FileShelf<'_, R> {
    ghost use Rattle.dv_base.specs.FileShelf.{told_of};

    ghost told = { told_of };

    fn get(&mut self, alloc: Global, name: &str, limit: u32) -> Got {
        let got = self.read(alloc, name, limit);
        match got {
            Got::Failed => self.faults = self.faults.saturating_add(1),
            Got::Absent => self.absents = self.absents.saturating_add(1),
            Got::TooLong => self.overs = self.overs.saturating_add(1),
            Got::Bytes(_) | Got::OutOfMemory => {}
        }
        got
    }
}
