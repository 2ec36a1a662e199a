//! Reads a PK file.
ghost use Rattle.std.specs.Prelude.{◌≡◌, ◌≢◌, ℕ, ◌+◌, ◌^◌, ◌<◌, ◌≤◌, length, slice_index, slice_set, IfOk, OnOk, OnErr, IfErr, MatchOption};
ghost use Rattle.pk_raster.specs.Font.{Font, Known, size, glyph_at};
ghost use Rattle.pk_raster.specs.Font.Known.{Nothing};
ghost use Rattle.pk_raster.specs.Glyph.{IsGlyph};
ghost use Rattle.pk_raster.specs.File.{IsPk, HasPreamble, body_at, checksum_of};
ghost use Rattle.pk_raster.specs.PartFaults.{packet_view};
ghost use Rattle.pk_raster.specs.GlyphFaults.{RefusesPacket, pk_fault};
ghost use Rattle.pk_raster.specs.Faults.{PkFaultIs, ReadSo, RefusesFile, NoFont, IsNotAdded, IsBadTail, OnlyNops};
ghost use Rattle.pk_raster.specs.declared.fault.PkFault.TheVariants.{OutOfMemory};

use crate::board::RasterFault;
use crate::fault::PkFault;
use crate::glyph::{bitmap_bytes, draw, read_sizes, sizes_len};
use crate::part::{BodyPart, CharacterPacket, next_part};
use crate::pk::Pk;
use dv_base::Cursor;
use std::alloc::Global;

/// A bitmap of more bytes isn't kept.
const MOST_BYTES: u64 = 65_535;

/// The flag byte that begins the preamble.
const PRE: u8 = 247;

/// The version of the format.
const ID: u8 = 89;

/// The flag byte that ends the body.
const POST: u8 = 245;

/// The flag byte that does nothing.
const NOP: u8 = 246;

/// The checksum in the preamble, and the place behind it.
fn read_preamble(bytes: &[u8]) -> Option<(u32, usize)>
    ensures { MatchOption result (HasPreamble bytes.now → ⊥) (λ r. HasPreamble bytes.now × (r.0 ≡ checksum_of bytes.now) × (r.1 ≡ body_at bytes.now)) }
{
    let mut cursor = Cursor::new(bytes);
    let first = cursor.u8()?;
    let id = cursor.u8()?;
    let comment = cursor.u8()?;
    if first != PRE || id != ID {
        return None;
    }
    cursor.take(comment as usize)?;
    let _design = cursor.u32()?;
    let checksum = cursor.u32()?;
    let _across = cursor.u32()?;
    let _down = cursor.u32()?;
    Some((checksum, cursor.place()))
}

/// The fault of the file where the raster of a code fails.
fn fault_of(fault: RasterFault, code: u8) -> PkFault
    ensures { result ≡ pk_fault fault code }
{
    match fault {
        RasterFault::RunsShort => PkFault::RunsShort(code),
        RasterFault::RunsPast => PkFault::RunsPast(code),
        RasterFault::RepeatTwice => PkFault::RepeatTwice(code),
        RasterFault::BadLength => PkFault::BadLength(code),
        RasterFault::OutOfMemory => PkFault::OutOfMemory,
    }
}

/// Tests that only nops stand behind the byte that ends the body.
fn read_tail(bytes: &[u8], post: usize) -> Result<(), PkFault>
    ensures some { OnOk result (post < length bytes.now) }
    ensures nops { OnOk result (OnlyNops bytes.now post) }
    ensures err { IfErr result (IsBadTail bytes.now post) }
{
    if bytes.len() <= post {
        return Err(PkFault::NoPost);
    }
    for at in post + 1..bytes.len() {
        if bytes[at] != NOP {
            return Err(PkFault::Undefined(at));
        }
    }
    Ok(())
}

impl Pk {
    /// Keeps what a packet draws.
    fn keep_packet(
        &mut self,
        alloc: Global,
        packet: &CharacterPacket<'_>,
        code: u8,
    ) -> Result<(), PkFault>
        requires flag { packet.now.flag < 240 }
        requires few { length packet.now.content.now ≤ 2 ^ 40 }
        requires code { packet.now.code ≡ code }
        requires new { glyph_at self.old code ≡ Nothing }
        ensures ok { OnOk result ((known : Known) × IsGlyph (packet_view packet.now) known × (self.new ≡ record self.old { glyphs = slice_set self.old.glyphs code known })) }
        ensures err { IfErr result (RefusesPacket (packet_view packet.now)) }
    {
        let start = sizes_len(packet.flag);
        if packet.content.len() < start {
            return Err(PkFault::BadLength(code));
        }
        let sizes = read_sizes(packet.flag, packet.content);
        let bytes = bitmap_bytes(&sizes);
        if bytes > MOST_BYTES {
            self.keep_size(code, bytes);
            return Ok(());
        }
        let raster = &packet.content[start..];
        let rows = match draw(alloc, packet.flag, &sizes, raster) {
            Ok(rows) => rows,
            Err(fault) => return Err(fault_of(fault, code)),
        };
        self.keep(code, sizes, &rows)?;
        Ok(())
    }

    /// Takes a packet into the font.
    fn add(
        &mut self,
        alloc: Global,
        packet: &CharacterPacket<'_>,
        code: u8,
        most: u64,
    ) -> Result<(), PkFault>
        requires flag { packet.now.flag < 240 }
        requires few { length packet.now.content.now ≤ 2 ^ 40 }
        requires code { packet.now.code ≡ code }
        ensures ok { OnOk result ((known : Known) × IsGlyph (packet_view packet.now) known × (glyph_at self.old code ≡ Nothing) × (self.new ≡ record self.old { glyphs = slice_set self.old.glyphs code known })) }
        ensures fits { OnOk result (size self.new ≤ most) }
        ensures err { IfErr result (IsNotAdded self.old most (packet_view packet.now)) }
    {
        if self.has(code) {
            return Err(PkFault::Twice(code));
        }
        self.keep_packet(alloc, packet, code)?;
        if self.size() > most {
            return Err(PkFault::Space);
        }
        Ok(())
    }

    /// Takes the part at a place, and answers the place behind it.
    fn take_part(
        &mut self,
        alloc: Global,
        bytes: &[u8],
        at: usize,
        most: u64,
    ) -> Result<usize, PkFault>
        requires inside { at < length bytes.now }
        requires body { slice_index bytes.now at ≢ 245 }
        requires reached { ReadSo bytes.now most self.old at }
        ensures further { IfOk result (λ next. at < next) }
        ensures ok { IfOk result (λ next. ReadSo bytes.now most self.new next) }
        ensures err { IfErr result (RefusesFile bytes.now most) }
    {
        let (part, next) = next_part(bytes, at)?;
        match part {
            BodyPart::Character(packet) => {
                if packet.code <= 255 {
                    self.add(alloc, &packet, packet.code as u8, most)?;
                }
                Ok(next)
            }
            BodyPart::Other => Ok(next),
        }
    }

    /// Reads a PK file whose bitmaps have no more than `most` bytes in all. A bitmap of more than 65,535 bytes isn't kept
    /// and doesn't count, and a character with a code above 255 is passed over.
    pub fn read(alloc: Global, bytes: &[u8], most: u64) -> Result<Pk, PkFault>
        ensures found { IfOk result (λ pk. IsPk bytes.now pk × (size pk ≤ most)) }
        ensures none { IfErr result (λ e. e ≢ OutOfMemory → NoFont bytes.now most) }
        ensures fault { IfErr result (PkFaultIs bytes.now most) }
    {
        let (checksum, start) = match read_preamble(bytes) {
            Some(preamble) => preamble,
            None => return Err(PkFault::BadPreamble),
        };
        let mut pk = Pk::blank(alloc, checksum)?;
        let mut at = start;
        'parts: while at < bytes.len() && bytes[at] != POST {
            at = pk.take_part(alloc, bytes, at, most)?;
        }
        read_tail(bytes, at)?;
        Ok(pk)
    }
}
