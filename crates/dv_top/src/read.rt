//! The input of a run, and the document in it.
ghost use Rattle.std.specs.Prelude.{◌≡◌, ◌≤◌, IfErr, IfOk, Some, length};
ghost use Rattle.dv_base.specs.FileName.{text_of};
ghost use Rattle.dv_base.specs.Shelf.{Keeps, WhereHeld};
ghost use Rattle.dvi_doc.specs.View.{IsRead};
ghost use Rattle.dv_top.specs.Reading.{NotDocument, NotRead};

use crate::outcome::Outcome;
use dv_base::{FileName, Got, Shelf};
use dvi_doc::{Doc, DocFault};
use std::alloc::Global;

/// The most bytes of a DVI file.
const MOST: u32 = 67_108_864;

/// Reads the file of that name, which has at most `most` bytes.
pub fn read_file<S: Shelf>(
    alloc: Global,
    name: &FileName,
    most: u32,
    shelf: &mut S,
) -> Result<Vec<u8>, Outcome>
    ensures bytes { IfOk result (λ v. (length v.items ≤ most) × WhereHeld (S.told shelf.old).held (λ held. held (text_of name.now) ≡ Some v.items)) }
    ensures cause { IfErr result (NotRead (text_of name.now) most (S.told shelf.old) (S.told shelf.new)) }
    ensures keeps { Keeps (S.told shelf.old) (S.told shelf.new) }
{
    let name = *name;
    match shelf.get(alloc, name.as_str(), most) {
        Got::Bytes(bytes) => Ok(bytes),
        Got::Absent => Err(Outcome::Missing { name }),
        Got::TooLong => Err(Outcome::FileTooLong { name }),
        Got::Failed => Err(Outcome::ReadFault { name }),
        Got::OutOfMemory => Err(Outcome::OutOfMemory),
    }
}

/// Reads the DVI file of that name.
pub fn read_input<S: Shelf>(
    alloc: Global,
    name: &FileName,
    shelf: &mut S,
) -> Result<Vec<u8>, Outcome>
    ensures bytes { IfOk result (λ v. (length v.items ≤ 67108864) × WhereHeld (S.told shelf.old).held (λ held. held (text_of name.now) ≡ Some v.items)) }
    ensures cause { IfErr result (NotRead (text_of name.now) 67108864 (S.told shelf.old) (S.told shelf.new)) }
    ensures keeps { Keeps (S.told shelf.old) (S.told shelf.new) }
{
    read_file(alloc, name, MOST, shelf)
}

/// The document in the bytes.
pub fn read_document<'a>(alloc: Global, bytes: &'a [u8]) -> Result<Doc<'a>, Outcome>
    requires { length bytes.now ≤ 67108864 }
    ensures found { IfOk result (λ doc. (doc.bytes ≡ bytes.now) × IsRead doc) }
    ensures cause { IfErr result (NotDocument bytes.now) }
{
    match Doc::read(alloc, bytes) {
        Ok(doc) => Ok(doc),
        Err(DocFault::OutOfMemory) => Err(Outcome::OutOfMemory),
        Err(kind) => Err(Outcome::BadDvi { kind }),
    }
}
