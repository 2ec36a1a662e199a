//! The lines of a listing, put together in place.
ghost use Rattle.std.specs.Prelude.{◌≡◌, ◌+◌, ◌<◌, ◌≤◌, ◌++◌, ◌∷◌, [], length, codes};
ghost use Rattle.dvi_ops.specs.View.{def_view, head_view, view};
ghost use Rattle.dvitype_list.specs.Kept.{IsInPage};
ghost use Rattle.dvitype_list.specs.Texts.{font_end, font_front, head_front, hex_byte, hex_digit, hex_word, more_counts, name_text, named_twice, page_front, place_text};

use dv_base::Line;
use dvi_ops::{Cmd, Def, Head};
use itoa::Integer;
use positions::Pos;

/// A hexadecimal digit, in lower case.
pub fn hex_digit(value: u8) -> u8
    requires { value < 16 }
    ensures { result ≡ hex_digit value }
{
    if value < 10 { 48 + value } else { 87 + value }
}

/// Appends the two digits of a byte.
fn hex_byte(line: &mut Line, byte: u8)
    requires { length line.old + 2 ≤ 1024 }
    ensures value { line.new ≡ line.old ++ hex_byte byte }
    ensures len { length line.new ≡ length line.old + 2 }
{
    line.text(&[hex_digit(byte / 16), hex_digit(byte % 16)]);
}

/// Appends the eight digits of a checksum.
pub fn hex_word(line: &mut Line, word: u32)
    requires { length line.old + 8 ≤ 1024 }
    ensures value { line.new ≡ line.old ++ hex_word word }
    ensures len { length line.new ≡ length line.old + 8 }
{
    hex_byte(line, (word >> 24) as u8);
    hex_byte(line, (word >> 16 & 255) as u8);
    hex_byte(line, (word >> 8 & 255) as u8);
    hex_byte(line, (word & 255) as u8);
}

/// Appends a name with a number.
fn named<I: Integer>(line: &mut Line, name: &[u8], q: I)
    requires { length line.old + length name.now + 40 ≤ 1024 }
    ensures value { line.new ≡ line.old ++ (name.now ++ I.text q) }
    ensures len { length line.new ≤ length line.old + length name.now + 40 }
{
    line.text(name);
    line.number(q);
}

/// Appends a name with two numbers.
fn named_twice(line: &mut Line, name: &[u8], a: i32, b: i32)
    requires { length line.old + length name.now + 81 ≤ 1024 }
    ensures value { line.new ≡ line.old ++ named_twice name.now a b }
    ensures len { length line.new ≤ length line.old + length name.now + 81 }
{
    line.text(name);
    line.number(a);
    line.text(b" ");
    line.number(b);
}

/// Appends the name of a command with its numbers; of a special the name alone.
#[tactic(auto, unfolding(crate::specs::Texts::name_text))]
pub fn name(line: &mut Line, cmd: &Cmd<'_>)
    requires room { length line.old + 100 ≤ 1024 }
    requires listed { IsInPage (view cmd.now) }
    ensures value { line.new ≡ line.old ++ name_text (view cmd.now) }
    ensures len { length line.new ≤ length line.old + 100 }
{
    match cmd {
        Cmd::Set(z) => named(line, b"set ", *z),
        Cmd::Put(z) => named(line, b"put ", *z),
        Cmd::SetRule { a, b } => named_twice(line, b"setrule ", *a, *b),
        Cmd::PutRule { a, b } => named_twice(line, b"putrule ", *a, *b),
        Cmd::Nop => line.text(b"nop"),
        Cmd::Eop => line.text(b"eop"),
        Cmd::Push => line.text(b"push"),
        Cmd::Pop => line.text(b"pop"),
        Cmd::Right(q) => named(line, b"right ", *q),
        Cmd::W0 => line.text(b"w0"),
        Cmd::W(q) => named(line, b"w ", *q),
        Cmd::X0 => line.text(b"x0"),
        Cmd::X(q) => named(line, b"x ", *q),
        Cmd::Down(q) => named(line, b"down ", *q),
        Cmd::Y0 => line.text(b"y0"),
        Cmd::Y(q) => named(line, b"y ", *q),
        Cmd::Z0 => line.text(b"z0"),
        Cmd::Z(q) => named(line, b"z ", *q),
        Cmd::Fnt(k) => named(line, b"fnt ", *k),
        Cmd::Xxx(_) => line.text(b"xxx "),
        Cmd::FntDef(def) => named(line, b"fntdef ", def.k),
        _ => unreachable!(),
    }
}

/// Appends the place behind a command, and the end of the line.
pub fn place(line: &mut Line, pos: &Pos)
    requires { length line.old + 200 ≤ 1024 }
    ensures value { line.new ≡ line.old ++ place_text pos.now }
    ensures len { length line.new ≤ length line.old + 200 }
{
    named(line, b" h=", pos.h);
    named(line, b" v=", pos.v);
    named(line, b" hh=", pos.hh);
    named(line, b" vv=", pos.vv);
    line.text(b"\n");
}

/// Puts together the first two lines, up to the comment.
pub fn head(line: &mut Line, head: &Head<'_>, mag: i64, pages: usize)
    requires { length line.old + 300 ≤ 1024 }
    ensures value { line.new ≡ line.old ++ head_front (head_view head.now) mag pages }
{
    named(line, b"dvi id=2 num=", head.num);
    named(line, b" den=", head.den);
    named(line, b" mag=", mag);
    line.text(b" pages=");
    line.number(pages);
    line.text(b"\ncomment=");
}

/// Puts together what stands before a font's name, and what stands behind it.
pub fn font_front(line: &mut Line, font: &Def<'_>)
    requires { length line.old + 100 ≤ 1024 }
    ensures value { line.new ≡ line.old ++ font_front (def_view font.now) }
{
    named(line, b"font ", font.k);
    line.text(b" ");
}

pub fn font_end(line: &mut Line, font: &Def<'_>)
    requires { length line.old + 200 ≤ 1024 }
    ensures value { line.new ≡ line.old ++ font_end (def_view font.now) }
{
    named(line, b" size=", font.size);
    named(line, b" design=", font.design);
    line.text(b" checksum=");
    hex_word(line, font.checksum);
    line.text(b"\n");
}

/// Puts together what a page's line says before its counts.
pub fn page(line: &mut Line, number: u32, at: u32)
    requires { length line.old + 200 ≤ 1024 }
    ensures value { line.new ≡ line.old ++ page_front number at }
    ensures len { length line.new ≤ length line.old + 150 }
{
    line.text(b"page ");
    line.number(number);
    line.text(b" at ");
    line.number(at);
    line.text(b" counts=");
}

/// Appends counts, each behind a point.
pub fn more_counts(line: &mut Line, counts: &[i32])
    requires room { length line.old + 500 ≤ 1024 }
    requires few { length counts.now ≤ 9 }
    ensures value { line.new ≡ line.old ++ more_counts counts.now }
    ensures len { length line.new ≤ length line.old + 450 }
{
    for count in counts {
        line.text(b".");
        line.number(*count);
    }
}
