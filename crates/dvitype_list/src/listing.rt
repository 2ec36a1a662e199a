//! The listing as a whole.
ghost use Rattle.std.specs.Prelude.{◌≡◌, ◌<◌, ◌≤◌, ◌+◌, ◌^◌, ◌++◌, [], ℕ, ℤ, List, length, map, nat_eq, slice_get, IfErr, IfOk, MatchBool, OnErr, OnOk};
ghost use Rattle.std.specs.List.{All};
ghost use Rattle.dv_base.specs.Shelf.{Keeps, Told};
ghost use Rattle.dv_base.specs.Tray.{KeepsNames, Seen};
ghost use Rattle.dvi_doc.specs.Document.{Document};
ghost use Rattle.dvi_doc.specs.Grammar.{AllInner, DefinesTwice, IsDoc};
ghost use Rattle.dvi_doc.specs.View.{IsRead};
ghost use Rattle.dvi_ops.specs.Placed.{Lexes, Placed};
ghost use Rattle.dvi_ops.specs.View.{def_view, view};
ghost use Rattle.font_set.specs.Fonts.{FontSet};
ghost use Rattle.font_set.specs.Gains.{Gains};
ghost use Rattle.dvitype_list.specs.Gathered.{Cut, Gathered};
ghost use Rattle.dvitype_list.specs.Kept.{Any, Failed, Finished, IsInPage, Ran, Stands, Went};
ghost use Rattle.dvitype_list.specs.Leaves.{AreOfFiles, EndsEarly, IsListed};
ghost use Rattle.dvitype_list.specs.Listing.{Run, commands_run, line_of, listing, magnification_of, one_run, page_run, pages_run};
ghost use Rattle.dvitype_list.specs.Standing.{Setting, Standing, page_start};
ghost use Rattle.font_set.specs.declared.want.Want.TheVariants.{Widths};
ghost use Rattle.dvitype_list.specs.Texts.{command_line, done_line, escaped, font_line, font_lines, head_text, page_line, place_text};
ghost use Rattle.dvitype_list.specs.Turns.{turned};
ghost use Rattle.dvitype_list.specs.Widths.{setting};

use crate::fault::ListFault;
use crate::gathered::Gatherer;
use crate::lines;
use crate::quick::quick_turn;
use crate::state::State;
use crate::turn::turn;
use dv_base::{Conv, Line, Shelf, Tray, WriteFault};
use dv_words::ListJob;
use dvi_doc::{Doc, Page, one_document};
use dvi_ops::{Cmd, Def, command_at};
use font_set::Fonts;
use positions::Pos;
use std::alloc::Global;

/// What is listed: the document, what turns its units into pixels, and whether each command has a line.
#[derive(Clone, Copy)]
struct Scene<'a> {
    doc: &'a Doc<'a>,
    conv: Conv,
    detail: bool,
}

/// Writes the line of a special, whose name is put together already.
fn special_line<T: Tray>(
    out: &mut Gatherer,
    tray: &mut T,
    line: &mut Line,
    words: &[u8],
    behind: &Pos,
) -> Result<(), WriteFault>
    requires begun { 0 < (T.seen tray.old).begun }
    ensures ok { (first : Seen) (text : List ℕ) → Gathered first (T.seen tray.old) out.old.kept.items text → OnOk result (Gathered first (T.seen tray.new) out.new.kept.items (text ++ (line.old ++ (escaped words.now ++ place_text behind.now)))) }
    ensures cut { (first : Seen) (text : List ℕ) → Gathered first (T.seen tray.old) out.old.kept.items text → OnErr result (Cut first (T.seen tray.new) (text ++ (line.old ++ (escaped words.now ++ place_text behind.now)))) }
    ensures keeps { KeepsNames (T.seen tray.old) (T.seen tray.new) }
{
    out.text(tray, line.as_slice())?;
    out.escaped(tray, words)?;
    line.clear();
    lines::place(line, behind);
    out.text(tray, line.as_slice())
}

/// Writes the line of another command, whose name is put together already.
fn plain_line<T: Tray>(
    out: &mut Gatherer,
    tray: &mut T,
    line: &mut Line,
    behind: &Pos,
) -> Result<(), WriteFault>
    requires begun { 0 < (T.seen tray.old).begun }
    requires room { length line.old + 200 ≤ 1024 }
    ensures ok { (first : Seen) (text : List ℕ) → Gathered first (T.seen tray.old) out.old.kept.items text → OnOk result (Gathered first (T.seen tray.new) out.new.kept.items (text ++ (line.old ++ place_text behind.now))) }
    ensures cut { (first : Seen) (text : List ℕ) → Gathered first (T.seen tray.old) out.old.kept.items text → OnErr result (Cut first (T.seen tray.new) (text ++ (line.old ++ place_text behind.now))) }
    ensures keeps { KeepsNames (T.seen tray.old) (T.seen tray.new) }
{
    lines::place(line, behind);
    out.text(tray, line.as_slice())
}

/// Writes the line of a command. The value `line` in which it is put together is the caller's, as a new one for each command is 1,024 bytes
/// to clear; what it held is dropped.
fn command_line<T: Tray>(
    out: &mut Gatherer,
    tray: &mut T,
    line: &mut Line,
    cmd: &Cmd<'_>,
    at: u32,
    behind: &Pos,
) -> Result<(), WriteFault>
    requires begun { 0 < (T.seen tray.old).begun }
    requires listed { IsInPage (view cmd.now) }
    ensures ok { (first : Seen) (text : List ℕ) → Gathered first (T.seen tray.old) out.old.kept.items text → OnOk result (Gathered first (T.seen tray.new) out.new.kept.items (text ++ command_line at (view cmd.now) behind.now)) }
    ensures cut { (first : Seen) (text : List ℕ) → Gathered first (T.seen tray.old) out.old.kept.items text → OnErr result (Cut first (T.seen tray.new) (text ++ command_line at (view cmd.now) behind.now)) }
    ensures keeps { KeepsNames (T.seen tray.old) (T.seen tray.new) }
{
    line.clear();
    line.number(at);
    line.text(b": ");
    lines::name(line, cmd);
    match cmd {
        Cmd::Xxx(text) => special_line(out, tray, line, text, behind),
        _ => plain_line(out, tray, line, behind),
    }
}

/// Writes the line of a command, where each command has one.
fn detail_line<T: Tray>(
    detail: bool,
    out: &mut Gatherer,
    tray: &mut T,
    line: &mut Line,
    cmd: &Cmd<'_>,
    at: u32,
    behind: &Pos,
) -> Result<(), WriteFault>
    requires begun { 0 < (T.seen tray.old).begun }
    requires listed { IsInPage (view cmd.now) }
    ensures ok { (first : Seen) (text : List ℕ) → Gathered first (T.seen tray.old) out.old.kept.items text → OnOk result (Gathered first (T.seen tray.new) out.new.kept.items (text ++ line_of detail (record { place = at; command = view cmd.now }) behind.now)) }
    ensures cut { (first : Seen) (text : List ℕ) → Gathered first (T.seen tray.old) out.old.kept.items text → OnErr result (Cut first (T.seen tray.new) (text ++ line_of detail (record { place = at; command = view cmd.now }) behind.now)) }
    ensures keeps { KeepsNames (T.seen tray.old) (T.seen tray.new) }
{
    if detail {
        command_line(out, tray, line, cmd, at, behind)
    } else {
        Ok(())
    }
}

/// Runs a command that has a quick way, and writes its line; false where it wasn't run, and then nothing has changed.
fn quick_command<T: Tray>(
    scene: &Scene<'_>,
    fonts: &Fonts,
    state: &mut State,
    out: &mut Gatherer,
    tray: &mut T,
    line: &mut Line,
    cmd: &Cmd<'_>,
    at: u32,
) -> Result<bool, WriteFault>
    requires begun { 0 < (T.seen tray.old).begun }
    requires listed { IsInPage (view cmd.now) }
    requires stands { (st : Standing) × Stands fonts.now state.old st }
    ensures ok { (begun : Seen) (text : List ℕ) (st : Standing) → Gathered begun (T.seen tray.old) out.old.kept.items text → Stands fonts.now state.old st → IfOk result (λ run. MatchBool run (Went (setting scene.now.conv scene.now.doc.now.fonts fonts.now) scene.now.detail (record { place = at; command = view cmd.now }) st fonts.now state.new begun (T.seen tray.new) out.new.kept.items text) (Stands fonts.now state.new st × Gathered begun (T.seen tray.new) out.new.kept.items text)) }
    ensures cut { (begun : Seen) (text : List ℕ) (st : Standing) → Gathered begun (T.seen tray.old) out.old.kept.items text → Stands fonts.now state.old st → OnErr result (Cut begun (T.seen tray.new) (text ++ (one_run scene.now.detail (record { place = at; command = view cmd.now }) st (turned (setting scene.now.conv scene.now.doc.now.fonts fonts.now) (view cmd.now) st)).text)) }
    ensures keeps { KeepsNames (T.seen tray.old) (T.seen tray.new) }
{
    if !quick_turn(&scene.conv, fonts, state, cmd) {
        return Ok(false);
    }
    let behind = &state.pos;
    match detail_line(scene.detail, out, tray, line, cmd, at, behind) {
        Ok(()) => Ok(true),
        Err(WriteFault) => Err(WriteFault),
    }
}

/// Runs a command and writes its line.
fn command<S: Shelf, T: Tray>(
    scene: &Scene<'_>,
    fonts: &mut Fonts,
    shelf: &mut S,
    state: &mut State,
    out: &mut Gatherer,
    tray: &mut T,
    line: &mut Line,
    cmd: &Cmd<'_>,
    at: u32,
) -> Result<(), ListFault>
    requires begun { 0 < (T.seen tray.old).begun }
    requires given { (n : ℤ) → DefinesTwice scene.now.doc.now.fonts n → ⊥ }
    requires listed { IsInPage (view cmd.now) }
    requires stands { (st : Standing) × Stands fonts.old state.old st }
    ensures ok { (begun : Seen) (text : List ℕ) (st : Standing) → Gathered begun (T.seen tray.old) out.old.kept.items text → Stands fonts.old state.old st → OnOk result (Went (setting scene.now.conv scene.now.doc.now.fonts fonts.new) scene.now.detail (record { place = at; command = view cmd.now }) st fonts.new state.new begun (T.seen tray.new) out.new.kept.items text) }
    ensures fault { (begun : Seen) (text : List ℕ) (st : Standing) → Gathered begun (T.seen tray.old) out.old.kept.items text → Stands fonts.old state.old st → IfErr result (Failed (one_run scene.now.detail (record { place = at; command = view cmd.now }) st (turned (setting scene.now.conv scene.now.doc.now.fonts fonts.new) (view cmd.now) st)) (setting scene.now.conv scene.now.doc.now.fonts fonts.new) fonts.new (S.told shelf.old) (S.told shelf.new) begun (T.seen tray.new) out.new.kept.items text) }
    ensures gains { Gains (S.told shelf.old).held fonts.old fonts.new Any Any }
    ensures shelf { Keeps (S.told shelf.old) (S.told shelf.new) }
    ensures keeps { KeepsNames (T.seen tray.old) (T.seen tray.new) }
{
    if let Err(fault) = turn(scene.doc, &scene.conv, fonts, shelf, state, cmd, at) {
        return Err(fault);
    }
    match detail_line(scene.detail, out, tray, line, cmd, at, &state.pos) {
        Ok(()) => Ok(()),
        Err(WriteFault) => Err(ListFault::WriteFault),
    }
}

/// Runs the commands between a page's bop and its eop, and writes their lines.
fn commands<S: Shelf, T: Tray>(
    scene: &Scene<'_>,
    fonts: &mut Fonts,
    shelf: &mut S,
    state: &mut State,
    out: &mut Gatherer,
    tray: &mut T,
    line: &mut Line,
    body: &[u8],
    first: u32,
) -> Result<(), ListFault>
    requires begun { 0 < (T.seen tray.old).begun }
    requires given { (n : ℤ) → DefinesTwice scene.now.doc.now.fonts n → ⊥ }
    requires short { first + length body.now < 2 ^ 31 }
    requires commands { (cs : List Placed) × Lexes first body.now cs × AllInner cs }
    requires stands { (st : Standing) × Stands fonts.old state.old st }
    ensures ok { (begun : Seen) (text : List ℕ) (st : Standing) (cs : List Placed) → Gathered begun (T.seen tray.old) out.old.kept.items text → Stands fonts.old state.old st → Lexes first body.now cs → OnOk result (Ran (commands_run (setting scene.now.conv scene.now.doc.now.fonts fonts.new) scene.now.detail cs st) fonts.new state.new begun (T.seen tray.new) out.new.kept.items text) }
    ensures fault { (begun : Seen) (text : List ℕ) (st : Standing) (cs : List Placed) → Gathered begun (T.seen tray.old) out.old.kept.items text → Stands fonts.old state.old st → Lexes first body.now cs → IfErr result (Failed (commands_run (setting scene.now.conv scene.now.doc.now.fonts fonts.new) scene.now.detail cs st) (setting scene.now.conv scene.now.doc.now.fonts fonts.new) fonts.new (S.told shelf.old) (S.told shelf.new) begun (T.seen tray.new) out.new.kept.items text) }
    ensures gains { Gains (S.told shelf.old).held fonts.old fonts.new Any Any }
    ensures shelf { Keeps (S.told shelf.old) (S.told shelf.new) }
    ensures keeps { KeepsNames (T.seen tray.old) (T.seen tray.new) }
{
    let mut at = 0;
    while at < body.len() {
        let (cmd, end) = command_at(body, at);
        let place = first + at as u32;
        at = end;
        // The quick way first: the other one clears and moves room for faults.
        match quick_command(scene, fonts, state, out, tray, line, &cmd, place) {
            Ok(true) => continue,
            Ok(false) => {}
            Err(WriteFault) => return Err(ListFault::WriteFault),
        }
        if let Err(fault) = command(scene, fonts, shelf, state, out, tray, line, &cmd, place) {
            return Err(fault);
        }
    }
    Ok(())
}

/// Writes the line of a page.
fn page_line<T: Tray>(
    out: &mut Gatherer,
    tray: &mut T,
    place: u32,
    page: &Page,
) -> Result<(), WriteFault>
    requires begun { 0 < (T.seen tray.old).begun }
    requires few { place < 2 ^ 31 }
    ensures ok { (first : Seen) (text : List ℕ) → Gathered first (T.seen tray.old) out.old.kept.items text → OnOk result (Gathered first (T.seen tray.new) out.new.kept.items (text ++ page_line (place + 1) page.now.at page.now.counts)) }
    ensures cut { (first : Seen) (text : List ℕ) → Gathered first (T.seen tray.old) out.old.kept.items text → OnErr result (Cut first (T.seen tray.new) (text ++ page_line (place + 1) page.now.at page.now.counts)) }
    ensures keeps { KeepsNames (T.seen tray.old) (T.seen tray.new) }
{
    let mut line = Line::new();
    lines::page(&mut line, place + 1, page.at);
    let counts = page.counts;
    line.number(counts[0]);
    lines::more_counts(&mut line, &counts[1..]);
    line.text(b"\n");
    out.text(tray, line.as_slice())
}

/// Lists the page at a place.
fn page<S: Shelf, T: Tray>(
    scene: &Scene<'_>,
    fonts: &mut Fonts,
    shelf: &mut S,
    state: &mut State,
    out: &mut Gatherer,
    tray: &mut T,
    place: u32,
) -> Result<(), ListFault>
    requires begun { 0 < (T.seen tray.old).begun }
    requires given { (n : ℤ) → DefinesTwice scene.now.doc.now.fonts n → ⊥ }
    requires read { IsRead scene.now.doc.now }
    requires short { length scene.now.doc.now.bytes < 2 ^ 31 }
    requires page { place < length scene.now.doc.now.pages }
    requires stands { (st : Standing) × Stands fonts.old state.old st }
    ensures ok { (d : Document) → IsDoc scene.now.doc.now.bytes d → (begun : Seen) (text : List ℕ) (st : Standing) → Gathered begun (T.seen tray.old) out.old.kept.items text → Stands fonts.old state.old st → OnOk result (Ran (page_run (setting scene.now.conv scene.now.doc.now.fonts fonts.new) scene.now.detail place (slice_get d.pages place) st.known) fonts.new state.new begun (T.seen tray.new) out.new.kept.items text) }
    ensures fault { (d : Document) → IsDoc scene.now.doc.now.bytes d → (begun : Seen) (text : List ℕ) (st : Standing) → Gathered begun (T.seen tray.old) out.old.kept.items text → Stands fonts.old state.old st → IfErr result (Failed (page_run (setting scene.now.conv scene.now.doc.now.fonts fonts.new) scene.now.detail place (slice_get d.pages place) st.known) (setting scene.now.conv scene.now.doc.now.fonts fonts.new) fonts.new (S.told shelf.old) (S.told shelf.new) begun (T.seen tray.new) out.new.kept.items text) }
    ensures gains { Gains (S.told shelf.old).held fonts.old fonts.new Any Any }
    ensures shelf { Keeps (S.told shelf.old) (S.told shelf.new) }
    ensures keeps { KeepsNames (T.seen tray.old) (T.seen tray.new) }
{
    one_document();
    let page = &scene.doc.pages()[place as usize];
    let body = scene.doc.body(place as usize);
    if let Err(WriteFault) = page_line(out, tray, place, page) {
        return Err(ListFault::WriteFault);
    }
    state.begin();
    let mut line = Line::new();
    if let Err(fault) = commands(
        scene, fonts, shelf, state, out, tray, &mut line, body, page.first,
    ) {
        return Err(fault);
    }
    command(
        scene,
        fonts,
        shelf,
        state,
        out,
        tray,
        &mut line,
        &Cmd::Eop,
        page.eop,
    )
}

/// Lists pages one after another.
fn pages<S: Shelf, T: Tray>(
    scene: &Scene<'_>,
    fonts: &mut Fonts,
    shelf: &mut S,
    state: &mut State,
    out: &mut Gatherer,
    tray: &mut T,
    places: &[u32],
) -> Result<(), ListFault>
    requires begun { 0 < (T.seen tray.old).begun }
    requires given { (n : ℤ) → DefinesTwice scene.now.doc.now.fonts n → ⊥ }
    requires read { IsRead scene.now.doc.now }
    requires short { length scene.now.doc.now.bytes < 2 ^ 31 }
    requires pages { All (λ place. place < length scene.now.doc.now.pages) places.now }
    requires stands { (st : Standing) × Stands fonts.old state.old st }
    ensures ok { (d : Document) → IsDoc scene.now.doc.now.bytes d → (begun : Seen) (text : List ℕ) (st : Standing) → Gathered begun (T.seen tray.old) out.old.kept.items text → Stands fonts.old state.old st → OnOk result (Ran (pages_run (setting scene.now.conv scene.now.doc.now.fonts fonts.new) scene.now.detail d.pages places.now st) fonts.new state.new begun (T.seen tray.new) out.new.kept.items text) }
    ensures fault { (d : Document) → IsDoc scene.now.doc.now.bytes d → (begun : Seen) (text : List ℕ) (st : Standing) → Gathered begun (T.seen tray.old) out.old.kept.items text → Stands fonts.old state.old st → IfErr result (Failed (pages_run (setting scene.now.conv scene.now.doc.now.fonts fonts.new) scene.now.detail d.pages places.now st) (setting scene.now.conv scene.now.doc.now.fonts fonts.new) fonts.new (S.told shelf.old) (S.told shelf.new) begun (T.seen tray.new) out.new.kept.items text) }
    ensures gains { Gains (S.told shelf.old).held fonts.old fonts.new Any Any }
    ensures shelf { Keeps (S.told shelf.old) (S.told shelf.new) }
    ensures keeps { KeepsNames (T.seen tray.old) (T.seen tray.new) }
{
    for place in places {
        if let Err(fault) = page(scene, fonts, shelf, state, out, tray, *place) {
            return Err(fault);
        }
    }
    Ok(())
}

/// Writes the line of a font.
fn font_line<T: Tray>(out: &mut Gatherer, tray: &mut T, font: &Def<'_>) -> Result<(), WriteFault>
    requires begun { 0 < (T.seen tray.old).begun }
    ensures ok { (first : Seen) (text : List ℕ) → Gathered first (T.seen tray.old) out.old.kept.items text → OnOk result (Gathered first (T.seen tray.new) out.new.kept.items (text ++ font_line (def_view font.now))) }
    ensures cut { (first : Seen) (text : List ℕ) → Gathered first (T.seen tray.old) out.old.kept.items text → OnErr result (Cut first (T.seen tray.new) (text ++ font_line (def_view font.now))) }
    ensures keeps { KeepsNames (T.seen tray.old) (T.seen tray.new) }
{
    let mut line = Line::new();
    lines::font_front(&mut line, font);
    out.text(tray, line.as_slice())?;
    out.text(tray, font.name)?;
    line.clear();
    lines::font_end(&mut line, font);
    out.text(tray, line.as_slice())
}

/// Writes the lines of the fonts.
fn font_lines<T: Tray>(out: &mut Gatherer, tray: &mut T, doc: &Doc<'_>) -> Result<(), WriteFault>
    requires begun { 0 < (T.seen tray.old).begun }
    ensures ok { (first : Seen) (text : List ℕ) → Gathered first (T.seen tray.old) out.old.kept.items text → OnOk result (Gathered first (T.seen tray.new) out.new.kept.items (text ++ font_lines doc.now.fonts)) }
    ensures cut { (first : Seen) (text : List ℕ) → Gathered first (T.seen tray.old) out.old.kept.items text → OnErr result (Cut first (T.seen tray.new) (text ++ font_lines doc.now.fonts)) }
    ensures keeps { KeepsNames (T.seen tray.old) (T.seen tray.new) }
{
    for font in doc.fonts() {
        font_line(out, tray, &doc.definition(font))?;
    }
    Ok(())
}

/// Writes the lines of the preamble.
fn head_lines<T: Tray>(
    out: &mut Gatherer,
    tray: &mut T,
    doc: &Doc<'_>,
    mag: i64,
) -> Result<(), WriteFault>
    requires begun { 0 < (T.seen tray.old).begun }
    ensures ok { (first : Seen) (text : List ℕ) → Gathered first (T.seen tray.old) out.old.kept.items text → OnOk result (Gathered first (T.seen tray.new) out.new.kept.items (text ++ head_text doc.now.head mag (length doc.now.pages))) }
    ensures cut { (first : Seen) (text : List ℕ) → Gathered first (T.seen tray.old) out.old.kept.items text → OnErr result (Cut first (T.seen tray.new) (text ++ head_text doc.now.head mag (length doc.now.pages))) }
    ensures keeps { KeepsNames (T.seen tray.old) (T.seen tray.new) }
{
    let head = doc.head();
    let mut line = Line::new();
    lines::head(&mut line, &head, mag, doc.pages().len());
    out.text(tray, line.as_slice())?;
    out.escaped(tray, head.comment)?;
    out.text(tray, b"\n")
}

/// Writes the last line.
fn done_line<T: Tray>(out: &mut Gatherer, tray: &mut T, pages: usize) -> Result<(), WriteFault>
    requires begun { 0 < (T.seen tray.old).begun }
    ensures ok { (first : Seen) (text : List ℕ) → Gathered first (T.seen tray.old) out.old.kept.items text → OnOk result (Gathered first (T.seen tray.new) out.new.kept.items (text ++ done_line pages)) }
    ensures cut { (first : Seen) (text : List ℕ) → Gathered first (T.seen tray.old) out.old.kept.items text → OnErr result (Cut first (T.seen tray.new) (text ++ done_line pages)) }
    ensures keeps { KeepsNames (T.seen tray.old) (T.seen tray.new) }
{
    let mut line = Line::new();
    line.text(b"done pages=");
    line.number(pages);
    line.text(b"\n");
    out.text(tray, line.as_slice())
}

/// Gathers the whole listing.
fn gather<S: Shelf, T: Tray>(
    scene: &Scene<'_>,
    fonts: &mut Fonts,
    shelf: &mut S,
    state: &mut State,
    out: &mut Gatherer,
    tray: &mut T,
    mag: i64,
    places: &[u32],
) -> Result<(), ListFault>
    requires begun { 0 < (T.seen tray.old).begun }
    requires given { (n : ℤ) → DefinesTwice scene.now.doc.now.fonts n → ⊥ }
    requires read { IsRead scene.now.doc.now }
    requires short { length scene.now.doc.now.bytes < 2 ^ 31 }
    requires pages { All (λ place. place < length scene.now.doc.now.pages) places.now }
    requires none { Stands fonts.old state.old (page_start []) }
    requires start { out.old.kept.items ≡ [] }
    ensures ok { (d : Document) → IsDoc scene.now.doc.now.bytes d → OnOk result (Finished (listing (setting scene.now.conv scene.now.doc.now.fonts fonts.new) scene.now.detail d mag places.now) (T.seen tray.old) (T.seen tray.new) out.new.kept.items []) }
    ensures fault { (d : Document) → IsDoc scene.now.doc.now.bytes d → IfErr result (Failed (listing (setting scene.now.conv scene.now.doc.now.fonts fonts.new) scene.now.detail d mag places.now) (setting scene.now.conv scene.now.doc.now.fonts fonts.new) fonts.new (S.told shelf.old) (S.told shelf.new) (T.seen tray.old) (T.seen tray.new) out.new.kept.items []) }
    ensures gains { Gains (S.told shelf.old).held fonts.old fonts.new Any Any }
    ensures shelf { Keeps (S.told shelf.old) (S.told shelf.new) }
    ensures keeps { KeepsNames (T.seen tray.old) (T.seen tray.new) }
{
    one_document();
    if let Err(WriteFault) = head_lines(out, tray, scene.doc, mag) {
        return Err(ListFault::WriteFault);
    }
    if let Err(WriteFault) = font_lines(out, tray, scene.doc) {
        return Err(ListFault::WriteFault);
    }
    if let Err(fault) = pages(scene, fonts, shelf, state, out, tray, places) {
        return Err(fault);
    }
    match done_line(out, tray, places.len()) {
        Ok(()) => Ok(()),
        Err(WriteFault) => Err(ListFault::WriteFault),
    }
}

/// The magnification in force: the job's, or else the file's.
fn magnification(doc: &Doc<'_>, job: &ListJob) -> i64
    ensures { result ≡ magnification_of doc.now.head job.now.mag }
{
    match job.mag {
        Some(mag) => i64::from(mag),
        None => i64::from(doc.head().mag),
    }
}

/// The fault with which a listing ends, once what was gathered before it is written: the tray's, where it fails.
fn stop<T: Tray>(fault: ListFault, out: &mut Gatherer, tray: &mut T) -> ListFault
    requires begun { 0 < (T.seen tray.old).begun }
    ensures left { (r : Run) (s : Setting) (set : FontSet) (old new : Told) (first : Seen) → Failed r s set old new first (T.seen tray.old) out.old.kept.items [] fault → EndsEarly r s set old new first (T.seen tray.new) result }
    ensures keeps { KeepsNames (T.seen tray.old) (T.seen tray.new) }
{
    match fault {
        ListFault::WriteFault => ListFault::WriteFault,
        other => match out.send(tray) {
            Ok(()) => other,
            Err(WriteFault) => ListFault::WriteFault,
        },
    }
}

/// Writes what was gathered.
fn finish<T: Tray>(
    gathered: Result<(), ListFault>,
    out: &mut Gatherer,
    tray: &mut T,
) -> Result<(), ListFault>
    requires begun { 0 < (T.seen tray.old).begun }
    ensures ok { (r : Run) (first : Seen) → OnOk gathered (Finished r first (T.seen tray.old) out.old.kept.items []) → OnOk result (IsListed r first (T.seen tray.new)) }
    ensures fault { (r : Run) (s : Setting) (set : FontSet) (old new : Told) (first : Seen) → OnOk gathered (Finished r first (T.seen tray.old) out.old.kept.items []) → IfErr gathered (Failed r s set old new first (T.seen tray.old) out.old.kept.items []) → IfErr result (EndsEarly r s set old new first (T.seen tray.new)) }
    ensures keeps { KeepsNames (T.seen tray.old) (T.seen tray.new) }
{
    match gathered {
        Ok(()) => match out.send(tray) {
            Ok(()) => Ok(()),
            Err(WriteFault) => Err(ListFault::WriteFault),
        },
        Err(fault) => Err(stop(fault, out, tray)),
    }
}

/// Writes the listing of the pages at these places to the output that was begun last.
///
/// The set of fonts knows none yet, and is for widths alone; a font becomes known where it is selected, and its TFM file is read at the first
/// character in it. The fault is the first one in the order of the listing, and the lines before its command have been written. Where the tray
/// fails or memory is refused, a front of the listing has been. Text is gathered and goes out in pieces of up to 65,536 bytes.
pub fn list<S: Shelf, T: Tray>(
    alloc: Global,
    doc: &Doc<'_>,
    fonts: &mut Fonts,
    shelf: &mut S,
    conv: &Conv,
    pages: &[u32],
    job: &ListJob,
    tray: &mut T,
) -> Result<(), ListFault>
    requires begun { 0 < (T.seen tray.old).begun }
    requires read { IsRead doc.now }
    requires short { length doc.now.bytes < 2 ^ 31 }
    requires pages { All (λ place. place < length doc.now.pages) pages.now }
    requires want { fonts.old.want ≡ Widths }
    requires none { fonts.old.fonts ≡ [] }
    ensures ok { (d : Document) → IsDoc doc.now.bytes d → OnOk result (IsListed (listing (setting conv.now doc.now.fonts fonts.new) (nat_eq job.now.detail 1) d (magnification_of doc.now.head job.now.mag) pages.now) (T.seen tray.old) (T.seen tray.new)) }
    ensures fault { (d : Document) → IsDoc doc.now.bytes d → IfErr result (EndsEarly (listing (setting conv.now doc.now.fonts fonts.new) (nat_eq job.now.detail 1) d (magnification_of doc.now.head job.now.mag) pages.now) (setting conv.now doc.now.fonts fonts.new) fonts.new (S.told shelf.old) (S.told shelf.new) (T.seen tray.old) (T.seen tray.new)) }
    ensures files { AreOfFiles (S.told shelf.old).held fonts.new }
    ensures units { (fonts.new.units ≡ fonts.old.units) × (fonts.new.want ≡ Widths) }
    ensures shelf { Keeps (S.told shelf.old) (S.told shelf.new) }
    ensures keeps { KeepsNames (T.seen tray.old) (T.seen tray.new) }
{
    let scene = Scene {
        doc,
        conv: *conv,
        detail: job.detail == 1,
    };
    let mut out = Gatherer::new(alloc)?;
    let mut state = State::new(alloc)?;
    let mag = magnification(doc, job);
    let gathered = gather(&scene, fonts, shelf, &mut state, &mut out, tray, mag, pages);
    finish(gathered, &mut out, tray)
}
