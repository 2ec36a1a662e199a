//! Where files come from.
ghost use Rattle.dv_base.specs.Shelf.{CountsBy, GetGives, Keeps, Told};

use std::alloc::Global;

/// What a shelf answers for a name.
#[derive(Drop)]
pub enum Got {
    /// The whole file.
    Bytes(Vec<u8>),
    /// There is no file of that name.
    Absent,
    /// The file has more bytes than the limit.
    TooLong,
    /// The file couldn't be read.
    Failed,
    OutOfMemory,
}

/// Where a run finds its files, by plain names.
///
/// A shelf tells what it holds, or, where it is the outside world, nothing of it; and it counts its faults, the names that
/// were absent and the files that were too long. No count falls.
pub trait Shelf {
    ghost told: { Self → Told };

    /// Reads the whole file of that name, of at most `limit` bytes.
    fn get(&mut self, alloc: Global, name: &str, limit: u32) -> Got
        ensures gives { GetGives name.now limit result (told self.old) (told self.new) }
        ensures keeps { Keeps (told self.old) (told self.new) }
        ensures others { CountsBy result (told self.old) (told self.new) };
}
