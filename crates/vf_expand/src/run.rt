//! The walk over a page's bytes, through the packets that it runs.
ghost use Rattle.std.specs.Prelude.{◌≡◌, ◌+◌, ◌-◌, ◌<◌, ◌≤◌, ◌^◌, pos, List, [], ◌∷◌, Option, length, take, vec_len, vec_capacity, OnOk, IfOk, IfErr, IfSome, Some, None, unsigned_abs, slice_range};
ghost use Rattle.positions.specs.Conditions.{SameCondition};
ghost use Rattle.dvi_ops.specs.Placed.{Placed, Lexes};
ghost use Rattle.dvi_ops.specs.Command.Command.{Set, Nop};
ghost use Rattle.dvi_ops.specs.Spelling.{Spell, byte_at};
ghost use Rattle.dvi_ops.specs.View.{view};
ghost use Rattle.font_set.specs.Key.{Key};
ghost use Rattle.font_set.specs.Programs.{id_of, select};
ghost use Rattle.font_set.specs.Frames.{char_act};
ghost use Rattle.font_set.specs.Covers.{Covers};
ghost use Rattle.font_set.specs.Count.{weight, font_behind, runs};
ghost use Rattle.dvi_doc.specs.Grammar.{IsInner, AllInner};
ghost use Rattle.vf_expand.specs.Commands.{special_size};
ghost use Rattle.vf_expand.specs.Pages.{chars};
ghost use Rattle.vf_expand.specs.Marks.{marks_alone};
ghost use Rattle.vf_expand.specs.Painted.{HasGlyph};
ghost use Rattle.vf_expand.specs.Wide.{IsWide, AreMet};
ghost use Rattle.vf_expand.specs.Quick.{IsQuick, CanSet, TookSet, RefusedSet};
ghost use Rattle.vf_expand.specs.Nops.{AreNops};
ghost use Rattle.vf_expand.specs.declared.fault.WalkFault.TheVariants as fault;
ghost use Rattle.vf_expand.specs.Turn.{turned, turn_marks, open_at};
ghost use Rattle.vf_expand.specs.Takes.{Took, TookPage, TookChar, FollowsTurn, Stops, char_marks};
ghost use Rattle.vf_expand.specs.Homes.{first_of, spot_of, scope_in, program_in, meaning_in, marks_in, count_in, IsGiven, IsFont, IsReady, IsTurnReady, IsCharReady};
ghost use Rattle.vf_expand.specs.Causes.{IsCause, IsTurnCause, IsMany, inside};
ghost use Rattle.vf_expand.specs.Shallow.{FindsRoom, PacketFinds, IsShallow};

use crate::fault::{Halt, WalkFault};
use crate::grid::Wide;
use crate::home::{Frame, Home, inner};
use crate::met::Glyphs;
use crate::nop::behind_nops;
use crate::paint::put_glyph;
use crate::plain::plain;
use dv_base::{FontId, Spot};
use dvi_ops::{Cmd, is_nop, next_cmd, one_reading, one_spelling};
use positions::{Canvas, Passed, Pos};
use std::alloc::{AllocError, Global};

/// How many pushes may be open.
pub const MOST_OPEN: usize = 1_000;

/// How many commands may be met.
const MOST_STEPS: u64 = 50_000_000;

/// How many selected fonts are remembered.
const HINTS: usize = 16;

/// The places of the open pushes of all frames, how many commands were met, and widths of glyphs.
#[derive(Drop)]
pub struct Run {
    pub saved: Vec<Pos>,
    pub steps: u64,
    pub glyphs: Glyphs,
    /// By the number of a page's font, modulo 16, the font that was selected last.
    pub hints: [Option<FontId>; HINTS],
    ghost room: { 1000 ≤ vec_capacity saved },
    ghost most: { vec_len saved ≤ 1000 },
    ghost few: { steps ≤ 50000000 },
}

/// The font and the code of a character that is covered.
fn character(frame: &Frame<'_>, font: Option<FontId>, z: i64) -> (FontId, u8)
    requires { (sel : Option Key) × (id_of frame.now.fonts.now sel ≡ font) × Covers frame.now.fonts.now (char_act sel z ∷ []) }
    ensures font { font ≡ Some result.0 }
    ensures code { z ≡ pos result.1 }
{
    match (font, u8::try_from(z)) {
        (Some(id), Ok(code)) => (id, code),
        _ => unreachable!(),
    }
}

/// A character that is quick: its font, and how wide it is.
#[derive(Clone, Copy)]
struct Found {
    font: FontId,
    wide: Wide,
}

impl Run {
    /// With room for all pushes that may be open.
    pub fn new(alloc: Global) -> Result<Run, AllocError>
        ensures { IfOk result (λ run. (run.saved.items ≡ []) × (run.steps ≡ 0)) }
    {
        let saved = Vec::with_capacity(alloc, MOST_OPEN)?;
        Ok(Run {
            saved,
            steps: 0,
            glyphs: Glyphs::new(alloc)?,
            hints: [None; HINTS],
        })
    }

    /// Walks over a frame that begins at a place.
    #[cycle(frames)]
    pub fn frame<C: Canvas>(
        &mut self,
        frame: &Frame<'_>,
        bytes: &[u8],
        start: Pos,
        canvas: &mut C,
    ) -> Result<(), WalkFault<C::Fault>>
        requires given { IsGiven frame.now.fonts.now frame.now.home }
        requires base { frame.now.base ≡ vec_len self.old.saved }
        requires short { first_of frame.now.home + length bytes.now < 2 ^ 31 }
        requires ready { (cs : List Placed) × Lexes (first_of frame.now.home) bytes.now cs × AllInner cs × IsReady C.can frame.now canvas.old cs start }
        requires met { AreMet frame.now.grid frame.now.fonts.now self.old.glyphs }
        ensures ok { (cs : List Placed) → Lexes (first_of frame.now.home) bytes.now cs → OnOk result (TookPage (Took (HasGlyph frame.now.grid frame.now.fonts.now) C.takes) canvas.old canvas.new (marks_in frame.now cs start)) }
        ensures stops { (cs : List Placed) → Lexes (first_of frame.now.home) bytes.now cs → IfErr result (Stops C.takes C.refuses canvas.old canvas.new (marks_alone (marks_in frame.now cs start))) }
        ensures cause { (cs : List Placed) → Lexes (first_of frame.now.home) bytes.now cs → IfErr result (IsCause frame.now.grid frame.now.fonts.now frame.now.nest (program_in frame.now cs) start (λ at. spot_of frame.now.home at) (first_of frame.now.home + length bytes.now) frame.now.base) }
        ensures steps { (cs : List Placed) → Lexes (first_of frame.now.home) bytes.now cs → OnOk result (self.new.steps ≡ self.old.steps + count_in frame.now cs) }
        ensures many { (cs : List Placed) → Lexes (first_of frame.now.home) bytes.now cs → IfErr result (IsMany (self.old.steps + count_in frame.now cs)) }
        ensures room { (cs : List Placed) → Lexes (first_of frame.now.home) bytes.now cs → OnOk result (IsShallow frame.now.grid frame.now.fonts.now frame.now.nest (program_in frame.now cs) start frame.now.base) }
        ensures stack { OnOk result (self.new.saved.items ≡ self.old.saved.items) }
        ensures met { OnOk result (AreMet frame.now.grid frame.now.fonts.now self.new.glyphs) }
        ensures same { OnOk result (SameCondition C.can canvas.old canvas.new) }
    {
        one_spelling();
        let mut pos = start;
        let mut font = self.glyphs.first(frame);
        let mut at = 0;
        while at < bytes.len() {
            let op = bytes[at];
            if let Some(found) = self.begins_run(frame, op, font, &pos) {
                match self.characters(frame, bytes, at, found, &mut pos, canvas) {
                    Ok(end) => at = end,
                    Err(f) => return Err(WalkFault::Canvas(f)),
                }
                continue;
            }
            if self.steps < MOST_STEPS && is_nop(bytes, at) {
                at = self.pass_nops(bytes, at);
                continue;
            }
            match next_cmd(bytes, at) {
                Ok((cmd, end)) => {
                    let spot = frame.home.spot(at);
                    at = end;
                    self.turn(frame, &cmd, spot, &mut pos, &mut font, canvas)?;
                }
                Err(_) => unreachable!(),
            }
        }
        if self.saved.len() == frame.base {
            Ok(())
        } else {
            Err(WalkFault::StackLeft(frame.home.spot(bytes.len())))
        }
    }

    /// Passes over a nop and those behind it, as many as may still be met; answers the place behind them.
    // A page may be nops almost all: no command is made for each.
    fn pass_nops(&mut self, bytes: &[u8], at: usize) -> usize
        requires there { at < length bytes.now }
        requires nop { Spell Nop (slice_range bytes.now at (at + 1)) }
        requires few { self.old.steps < 50000000 }
        ensures further { at < result }
        ensures inside { result ≤ length bytes.now }
        ensures nops { AreNops bytes.now at result }
        ensures steps { self.new.steps + at ≡ self.old.steps + result }
        ensures stack { self.new.saved.items ≡ self.old.saved.items }
        ensures met { self.new.glyphs ≡ self.old.glyphs }
    {
        let next = at + 1;
        let left = (MOST_STEPS - self.steps) as usize - 1;
        let end = behind_nops(bytes, next, left.min(bytes.len() - next));
        self.steps += (end - at) as u64;
        end
    }

    /// How wide the character in one byte is, where its glyph is kept and the place behind it is within the limit.
    #[inline(always)]
    fn quick(&self, frame: &Frame<'_>, id: FontId, op: u8, here: &Pos) -> Option<Wide>
        requires met { AreMet frame.now.grid frame.now.fonts.now self.now.glyphs }
        ensures { IfSome result (IsQuick frame.now id op here.now) }
    {
        if op >= 128 {
            return None;
        }
        let wide = self.glyphs.kept(id, op)?;
        if wide.fits(here) { Some(wide) } else { None }
    }

    /// The character in one byte, where it is quick and may still be met.
    #[inline(always)]
    fn begins_run(
        &self,
        frame: &Frame<'_>,
        op: u8,
        font: Option<FontId>,
        here: &Pos,
    ) -> Option<Found>
        requires met { AreMet frame.now.grid frame.now.fonts.now self.now.glyphs }
        ensures few { IfSome result (λ found. self.now.steps < 50000000) }
        ensures font { IfSome result (λ found. font ≡ Some found.font) }
        ensures quick { IfSome result (λ found. IsQuick frame.now found.font op here.now found.wide) }
    {
        let font = font?;
        if self.steps >= MOST_STEPS {
            return None;
        }
        let wide = self.quick(frame, font, op, here)?;
        Some(Found { font, wide })
    }

    /// Sets the quick characters that stand from a place on, of which the first is so wide; answers the place behind them.
    // Most of a page is such characters: no command and no fault is made for them, and what the loop needs stays in registers.
    #[inline(never)]
    fn characters<C: Canvas>(
        &mut self,
        frame: &Frame<'_>,
        bytes: &[u8],
        start: usize,
        first: Found,
        pos: &mut Pos,
        canvas: &mut C,
    ) -> Result<usize, C::Fault>
        requires inside { start < length bytes.now }
        requires few { self.old.steps < 50000000 }
        requires first { IsQuick frame.now first.font (byte_at bytes.now start) pos.old first.wide }
        requires met { AreMet frame.now.grid frame.now.fonts.now self.old.glyphs }
        requires can { CanSet C.can frame.now canvas.old first.font bytes.now start pos.old }
        ensures further { IfOk result (λ end. (start < end) × (end ≤ length bytes.now)) }
        ensures ok { IfOk result (λ end. TookSet C.takes frame.now first.font bytes.now start (end - start) pos.old pos.new canvas.old canvas.new) }
        ensures refused { IfErr result (λ x. RefusedSet C.refuses frame.now first.font bytes.now start pos.old canvas.old canvas.new x) }
        ensures steps { IfOk result (λ end. self.new.steps + start ≡ self.old.steps + end) }
        ensures stack { self.new.saved.items ≡ self.old.saved.items }
        ensures met { self.new.glyphs ≡ self.old.glyphs }
        ensures same { OnOk result (SameCondition C.can canvas.old canvas.new) }
    {
        let left = (MOST_STEPS - self.steps) as usize;
        let end = start + left.min(bytes.len() - start);
        let reach = frame.grid.reach();
        let mut told = frame.grid.excess(pos);
        let mut here = *pos;
        let mut wide = first.wide;
        let mut at = start;
        loop {
            let mark = frame.grid.glyph(first.font, bytes[at], &here, &wide);
            told = frame.grid.past_told(reach, told, &mut here, &wide);
            canvas.glyph(&mark)?;
            at += 1;
            if at == end {
                break;
            }
            match self.quick(frame, first.font, bytes[at], &here) {
                Some(next) => wide = next,
                None => break,
            }
        }
        *pos = here;
        self.steps += (at - start) as u64;
        Ok(at)
    }

    /// Does one command; `spot` is where it stands.
    // Where the loop stands, so that its state stays in registers.
    #[cycle(frames)]
    #[inline(always)]
    fn turn<C: Canvas>(
        &mut self,
        frame: &Frame<'_>,
        cmd: &Cmd<'_>,
        spot: Spot,
        pos: &mut Pos,
        font: &mut Option<FontId>,
        canvas: &mut C,
    ) -> Result<(), WalkFault<C::Fault>>
        requires given { IsGiven frame.now.fonts.now frame.now.home }
        requires base { frame.now.base ≤ vec_len self.old.saved }
        requires font { IsFont frame.now.fonts.now font.old }
        requires inner { IsInner (view cmd.now) }
        requires short { special_size (view cmd.now) < 2 ^ 31 }
        requires ready { IsTurnReady C.can frame.now canvas.old (view cmd.now) font.old (turn_marks (turned (meaning_in frame.now) (view cmd.now) (open_at frame.now.base self.old.saved.items) (record { place = pos.old; font = font.old }))) }
        requires met { AreMet frame.now.grid frame.now.fonts.now self.old.glyphs }
        ensures ok { OnOk result (FollowsTurn (Took (HasGlyph frame.now.grid frame.now.fonts.now) C.takes) canvas.old canvas.new (open_at frame.now.base self.new.saved.items) (record { place = pos.new; font = font.new }) (turned (meaning_in frame.now) (view cmd.now) (open_at frame.now.base self.old.saved.items) (record { place = pos.old; font = font.old }))) }
        ensures stops { IfErr result (Stops C.takes C.refuses canvas.old canvas.new (turn_marks (turned (meaning_in frame.now) (view cmd.now) (open_at frame.now.base self.old.saved.items) (record { place = pos.old; font = font.old })))) }
        ensures cause { IfErr result (IsTurnCause (meaning_in frame.now) spot frame.now.base (inside frame.now.grid frame.now.fonts.now frame.now.nest (frame.now.base + length (open_at frame.now.base self.old.saved.items))) (view cmd.now) (open_at frame.now.base self.old.saved.items) (record { place = pos.old; font = font.old })) }
        ensures steps { OnOk result (self.new.steps ≡ self.old.steps + weight (runs frame.now.fonts.now frame.now.nest) font.old (view cmd.now)) }
        ensures many { IfErr result (IsMany (self.old.steps + weight (runs frame.now.fonts.now frame.now.nest) font.old (view cmd.now))) }
        ensures room { OnOk result (FindsRoom (PacketFinds frame.now.grid frame.now.fonts.now frame.now.nest) frame.now.base (view cmd.now) (open_at frame.now.base self.old.saved.items) (record { place = pos.old; font = font.old })) }
        ensures below { OnOk result (take frame.now.base self.new.saved.items ≡ take frame.now.base self.old.saved.items) }
        ensures base { OnOk result (frame.now.base ≤ vec_len self.new.saved) }
        ensures behind { OnOk result (font.new ≡ font_behind (select frame.now.fonts.now (scope_in frame.now)) font.old (view cmd.now)) }
        ensures met { OnOk result (AreMet frame.now.grid frame.now.fonts.now self.new.glyphs) }
        ensures same { OnOk result (SameCondition C.can canvas.old canvas.new) }
    {
        if self.steps >= MOST_STEPS {
            return Err(WalkFault::TooManySteps);
        }
        self.steps += 1;
        match cmd {
            Cmd::Push => {
                if self.saved.len() >= MOST_OPEN {
                    return Err(WalkFault::StackDeep(spot));
                }
                match self.saved.push(*pos) {
                    Ok(()) => Ok(()),
                    Err(_) => unreachable!(),
                }
            }
            Cmd::Pop => {
                if self.saved.len() == frame.base {
                    return Err(WalkFault::StackUnder(spot));
                }
                match self.saved.pop() {
                    Some(old) => {
                        *pos = old;
                        Ok(())
                    }
                    None => unreachable!(),
                }
            }
            Cmd::Fnt(k) => match frame.select(*k, &mut self.hints[k.rem_euclid(16) as usize]) {
                Some(id) => {
                    *font = Some(id);
                    Ok(())
                }
                None => unreachable!(),
            },
            Cmd::Set(z) => {
                let (id, code) = character(frame, *font, *z);
                let wide = self.show(frame, id, code, pos, canvas)?;
                match frame.grid.past_char(pos, &wide) {
                    Ok(()) => Ok(()),
                    Err(Passed) => Err(WalkFault::Overflow(spot)),
                }
            }
            Cmd::Put(z) => {
                let (id, code) = character(frame, *font, *z);
                self.show(frame, id, code, pos, canvas)?;
                Ok(())
            }
            other => match plain(frame, other, pos, font, canvas) {
                Ok(()) => Ok(()),
                Err(Halt::Passed) => Err(WalkFault::Overflow(spot)),
                Err(Halt::Canvas(f)) => Err(WalkFault::Canvas(f)),
            },
        }
    }

    /// Shows a character at a place, and answers how wide it is.
    #[cycle(frames)]
    #[inline(always)]
    fn show<C: Canvas>(
        &mut self,
        frame: &Frame<'_>,
        id: FontId,
        code: u8,
        here: &Pos,
        canvas: &mut C,
    ) -> Result<Wide, WalkFault<C::Fault>>
        requires ready { IsCharReady C.can frame.now canvas.old (Some id) (pos code) (char_marks (chars frame.now.grid frame.now.fonts.now frame.now.nest (Some id) (pos code) here.now)) }
        requires met { AreMet frame.now.grid frame.now.fonts.now self.old.glyphs }
        ensures ok { IfOk result (λ wide. TookChar (Took (HasGlyph frame.now.grid frame.now.fonts.now) C.takes) canvas.old canvas.new wide.width (chars frame.now.grid frame.now.fonts.now frame.now.nest (Some id) (pos code) here.now)) }
        ensures wide { IfOk result (λ wide. IsWide frame.now.grid wide) }
        ensures stops { IfErr result (Stops C.takes C.refuses canvas.old canvas.new (char_marks (chars frame.now.grid frame.now.fonts.now frame.now.nest (Some id) (pos code) here.now))) }
        ensures cause { IfErr result (inside frame.now.grid frame.now.fonts.now frame.now.nest (vec_len self.old.saved) (Some id) (pos code) here.now) }
        ensures steps { OnOk result (self.new.steps ≡ self.old.steps + runs frame.now.fonts.now frame.now.nest (Some id) (pos code)) }
        ensures many { IfErr result (IsMany (self.old.steps + runs frame.now.fonts.now frame.now.nest (Some id) (pos code))) }
        ensures room { OnOk result (PacketFinds frame.now.grid frame.now.fonts.now frame.now.nest (vec_len self.old.saved) (Some id) (pos code) here.now) }
        ensures stack { OnOk result (self.new.saved.items ≡ self.old.saved.items) }
        ensures met { OnOk result (AreMet frame.now.grid frame.now.fonts.now self.new.glyphs) }
        ensures same { OnOk result (SameCondition C.can canvas.old canvas.new) }
    {
        one_reading();
        let (glyph, wide) = self.glyphs.find(&frame.grid, frame.fonts, id, code);
        if glyph {
            return match put_glyph(&frame.grid, id, code, here, &wide, canvas) {
                Ok(()) => Ok(wide),
                Err(f) => Err(WalkFault::Canvas(f)),
            };
        }
        let Some(packet) = frame.fonts.packet(id, code) else {
            unreachable!()
        };
        if frame.nest == 0 {
            return Err(WalkFault::NestDeep(id, code));
        }
        let nested = Frame {
            grid: frame.grid,
            fonts: frame.fonts,
            home: Home::Packet { font: id, code },
            nest: frame.nest - 1,
            base: self.saved.len(),
        };
        self.frame(&nested, packet, inner(here), canvas)?;
        Ok(wide)
    }
}
