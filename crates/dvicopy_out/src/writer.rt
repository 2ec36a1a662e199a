//! The writer of a copy.
ghost use Rattle.std.specs.Prelude.{◌≡◌, ◌<◌, ◌≤◌, ◌+◌, ◌^◌, ◌++◌, ◌∷◌, [], OnErr, OnOk, length, negsuc, pos, unsigned_abs, vec_len, vec_capacity};
ghost use Rattle.dvi_ops.specs.Command.Command.{Bop, Eop};
ghost use Rattle.dvi_ops.specs.View.{view};
ghost use Rattle.dvicopy_out.specs.Counted.{counted};
ghost use Rattle.dvicopy_out.specs.Marked.{page_pen};
ghost use Rattle.dvicopy_out.specs.Sent.{Out, Sends};
ghost use Rattle.dvicopy_out.specs.Spelled.{spelled};
ghost use Rattle.dvi_ops.specs.Shortest.{CanBePut, shortest};
ghost use Rattle.dvicopy_out.specs.Tables.{IsTable};

use crate::numbers::Numbers;
use crate::pen::Pen;
use crate::script::Script;
use dv_base::{Tray, WriteFault, write_all};
use dvi_ops::Cmd;
use font_set::Fonts;
use positions::{Canvas, GlyphMark, RuleMark, SpecialMark};

/// How many bytes wait at most.
pub const ROOM: usize = 65_536;

/// Appends bytes for which there is room.
fn append(buffer: &mut Vec<u8>, bytes: &[u8])
    requires { vec_len buffer.old + length bytes.now ≤ vec_capacity buffer.old }
    ensures items { buffer.new.items ≡ buffer.old.items ++ bytes.now }
    ensures len { vec_len buffer.new ≡ vec_len buffer.old + length bytes.now }
    ensures room { vec_capacity buffer.old ≤ vec_capacity buffer.new }
{
    match buffer.extend_from_slice(bytes) {
        Ok(()) => {}
        Err(_) => unreachable!(),
    }
}

/// Lets the tray take what waits.
fn flush<T: Tray>(tray: &mut T, waiting: &mut Vec<u8>) -> Result<(), WriteFault>
    requires begun { 0 < (T.seen tray.old).begun }
    ensures sends { Sends [] (record { seen = T.seen tray.old; waiting = waiting.old.items }) (record { seen = T.seen tray.new; waiting = waiting.new.items }) result }
    ensures none { OnOk result (waiting.new.items ≡ []) }
    ensures len { vec_len waiting.new ≤ vec_len waiting.old }
    ensures empty { OnOk result (vec_len waiting.new ≡ 0) }
    ensures room { vec_capacity waiting.new ≡ vec_capacity waiting.old }
{
    write_all(tray, waiting.as_slice())?;
    waiting.clear();
    Ok(())
}

/// Lets bytes wait, where there is room for them behind what waits; else what waits goes out first.
fn send<T: Tray>(tray: &mut T, waiting: &mut Vec<u8>, bytes: &[u8]) -> Result<(), WriteFault>
    requires begun { 0 < (T.seen tray.old).begun }
    requires room { 65536 ≤ vec_capacity waiting.old }
    requires fits { vec_len waiting.old ≤ 65536 }
    ensures sends { Sends bytes.now (record { seen = T.seen tray.old; waiting = waiting.old.items }) (record { seen = T.seen tray.new; waiting = waiting.new.items }) result }
    ensures room { 65536 ≤ vec_capacity waiting.new }
    ensures fits { vec_len waiting.new ≤ 65536 }
{
    if bytes.len() <= ROOM - waiting.len() {
        append(waiting, bytes);
        return Ok(());
    }
    flush(tray, waiting)?;
    if bytes.len() > ROOM {
        write_all(tray, bytes)
    } else {
        append(waiting, bytes);
        Ok(())
    }
}

/// Writes a copy to a tray, command after command, through a buffer.
///
/// The tray has begun an output. After a [`WriteFault`] a front of what went in went out. No call takes memory.
#[derive(Drop)]
pub struct Writer<'a, T: Tray> {
    tray: &'a mut T,
    fonts: &'a Fonts,
    numbers: Numbers,
    waiting: &'a mut Vec<u8>,
    script: Script,
    pen: Pen,
    place: u64,
    last: i64,
    ghost table: { IsTable fonts.now numbers },
    ghost room: { 65536 ≤ vec_capacity waiting.now },
    ghost few: { vec_len waiting.now ≤ 65536 },
    ghost fits: { place < 2 ^ 64 },
}

impl<'a, T: Tray> Writer<'a, T> {
    ghost use Rattle.dvicopy_out.specs.Shown.{Holds, fonts_of, last_of, loan_of, out_of, pen_of, place_of, tray_of};

    /// A writer to this tray, through this buffer.
    pub fn new(tray: &'a mut T, fonts: &'a Fonts, buffer: &'a mut Vec<u8>) -> Writer<'a, T>
        requires empty { vec_len buffer.old ≡ 0 }
        requires room { 65536 ≤ vec_capacity buffer.old }
        ensures tray { tray_of result ≡ tray.old }
        ensures loan { loan_of result ≡ tray.entry.ghost_name }
        ensures fonts { fonts_of result ≡ fonts.now }
        ensures out { out_of result ≡ record { seen = T.seen tray.old; waiting = [] } }
        ensures place { place_of result ≡ 0 }
        ensures last { last_of result ≡ negsuc 0 }
    {
        Writer {
            tray,
            fonts,
            numbers: Numbers::new(fonts),
            waiting: buffer,
            script: Script::new(),
            pen: Pen::new(),
            place: 0,
            last: -1,
        }
    }

    /// Lets bytes go in.
    pub fn put(&mut self, bytes: &[u8]) -> Result<(), WriteFault>
        requires { 0 < (out_of self.old).seen.begun }
        ensures sends { Sends bytes.now (out_of self.old) (out_of self.new) result }
        ensures place { OnOk result (place_of self.new ≡ counted (place_of self.old) (length bytes.now)) }
        ensures holds { Holds self.old self.new }
        ensures last { last_of self.new ≡ last_of self.old }
        ensures pen { pen_of self.new ≡ pen_of self.old }
    {
        send(self.tray, self.waiting, bytes)?;
        self.place = self.place.saturating_add(bytes.len() as u64);
        Ok(())
    }

    /// Lets the commands that were spelled go in.
    fn put_script(&mut self) -> Result<(), WriteFault>
        requires { 0 < (out_of self.old).seen.begun }
        ensures sends { Sends self.old.script (out_of self.old) (out_of self.new) result }
        ensures place { OnOk result (place_of self.new ≡ counted (place_of self.old) (length self.old.script)) }
        ensures holds { Holds self.old self.new }
        ensures last { last_of self.new ≡ last_of self.old }
        ensures pen { pen_of self.new ≡ pen_of self.old }
    {
        send(self.tray, self.waiting, self.script.as_slice())?;
        self.place = self
            .place
            .saturating_add(self.script.as_slice().len() as u64);
        Ok(())
    }

    /// Lets a command without a text of its own go in.
    pub fn command(&mut self, cmd: &Cmd<'_>) -> Result<(), WriteFault>
        requires begun { 0 < (out_of self.old).seen.begun }
        requires put { CanBePut (view cmd.now) }
        ensures sends { Sends (shortest (view cmd.now)) (out_of self.old) (out_of self.new) result }
        ensures place { OnOk result (place_of self.new ≡ counted (place_of self.old) (length (shortest (view cmd.now)))) }
        ensures holds { Holds self.old self.new }
        ensures last { last_of self.new ≡ last_of self.old }
        ensures pen { pen_of self.new ≡ pen_of self.old }
    {
        self.script.clear();
        self.script.command(cmd);
        self.put_script()
    }

    /// Begins a page with these counts.
    pub fn begin_page(&mut self, counts: &[i32; 10]) -> Result<(), WriteFault>
        requires begun { 0 < (out_of self.old).seen.begun }
        requires place { place_of self.old < 2 ^ 31 }
        requires last { unsigned_abs (last_of self.old) < 2 ^ 31 }
        ensures sends { Sends (spelled (Bop counts.now (last_of self.old) ∷ [])) (out_of self.old) (out_of self.new) result }
        ensures place { OnOk result (place_of self.new ≡ counted (place_of self.old) (length (spelled (Bop counts.now (last_of self.old) ∷ [])))) }
        ensures holds { Holds self.old self.new }
        ensures last { OnOk result (last_of self.new ≡ pos (place_of self.old)) }
        ensures pen { OnOk result (pen_of self.new ≡ page_pen) }
    {
        let at = self.place;
        self.command(&Cmd::Bop {
            counts: *counts,
            back: self.last as i32,
        })?;
        self.last = at as i64;
        self.pen = Pen::new();
        Ok(())
    }

    /// Ends a page.
    pub fn end_page(&mut self) -> Result<(), WriteFault>
        requires { 0 < (out_of self.old).seen.begun }
        ensures sends { Sends (spelled (Eop ∷ [])) (out_of self.old) (out_of self.new) result }
        ensures place { OnOk result (place_of self.new ≡ counted (place_of self.old) (length (spelled (Eop ∷ [])))) }
        ensures holds { Holds self.old self.new }
        ensures last { last_of self.new ≡ last_of self.old }
    {
        self.command(&Cmd::Eop)
    }

    /// Lets the tray take what waits.
    pub fn finish(&mut self) -> Result<(), WriteFault>
        requires { 0 < (out_of self.old).seen.begun }
        ensures sends { Sends [] (out_of self.old) (out_of self.new) result }
        ensures none { OnOk result ((out_of self.new).waiting ≡ []) }
        ensures holds { Holds self.old self.new }
    {
        flush(self.tray, self.waiting)
    }

    /// How many bytes went in.
    pub fn place(&self) -> u64
        ensures { result ≡ place_of self.now }
    {
        self.place
    }

    /// The place of the last bop, or -1.
    pub fn last(&self) -> i64
        ensures { result ≡ last_of self.now }
    {
        self.last
    }
}

impl<'a, T: Tray> Canvas for Writer<'a, T> {
    ghost use Rattle.dvicopy_out.specs.Taken.{CanTake, Took, Refused, took_nothing, took_more, refused_after};

    type Fault = WriteFault;

    ghost can = { λ writer mark. CanTake writer mark };

    ghost takes = { λ old new marks. Took old new marks };

    ghost refuses = { λ old new marks mark fault. Refused old new marks mark };

    fn glyph(&mut self, mark: &GlyphMark) -> Result<(), WriteFault> {
        let number = self.numbers.of(mark.font);
        self.pen.glyph(&mut self.script, mark, number);
        self.put_script()
    }

    fn rule(&mut self, mark: &RuleMark) -> Result<(), WriteFault> {
        self.pen.rule(&mut self.script, mark);
        self.put_script()
    }

    fn special(&mut self, mark: &SpecialMark<'_>) -> Result<(), WriteFault> {
        self.pen.special(&mut self.script, mark);
        self.put_script()?;
        self.put(mark.bytes)
    }

    ghost starts = { λ writer. took_nothing writer };

    ghost chains = { λ a b c xs ys. took_more a b c xs ys };

    ghost refused_later = { λ a b c xs ys mark fault. refused_after a b c xs ys mark };
}
