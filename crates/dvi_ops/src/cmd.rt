//! Commands as the readers give them.

use thiserror::Error;

/// A font definition (DVI format, `fnt_def1` to `fnt_def4`).
///
/// `size` and `design` are in DVI units, as the file has them: they may be negative here.
// A document may define a hundred thousand fonts: in this order the fields leave the fewest gaps.
#[derive(Clone, Copy, Debug)]
pub struct Def<'a> {
    /// The number by which the file selects the font.
    pub k: i32,
    /// The check sum that the font's metric file should have.
    pub checksum: u32,
    /// The size at which the font is used.
    pub size: i32,
    /// The size that it was designed for.
    pub design: i32,
    /// How many bytes of `name` are the area.
    pub area: u8,
    /// The area and the name of the font, joined.
    pub name: &'a [u8],
}

/// What stands before all pages (DVI format, `pre`).
#[derive(Clone, Copy, Debug)]
pub struct Head<'a> {
    /// The version of the format.
    pub id: u8,
    /// One unit is `num / den` of 10^-7 metres, before `mag`.
    pub num: i32,
    pub den: i32,
    /// 1000 times the magnification.
    pub mag: i32,
    /// What the writer of the file said of it.
    pub comment: &'a [u8],
}

/// What stands behind all pages (DVI format, `post`).
#[derive(Clone, Copy, Debug, PartialEq, Eq)]
pub struct Tail {
    /// The place of the last page's `bop`, or -1.
    pub back: i32,
    /// The three numbers of `pre` again.
    pub num: i32,
    pub den: i32,
    pub mag: i32,
    /// The height plus depth of the tallest page, in units.
    pub tall: i32,
    /// The width of the widest page, in units.
    pub wide: i32,
    /// The greatest depth of the stack.
    pub depth: u16,
    /// The number of pages, modulo 65536.
    pub pages: u16,
}

/// One command. Distances are in DVI units; a code or a font number is the number that the operands spell.
#[derive(Clone, Copy, Debug)]
pub enum Cmd<'a> {
    /// Sets a character and moves right by its width.
    Set(i64),
    /// Sets a character and stays.
    Put(i64),
    /// A rule of height `a` and width `b`, and a move right by `b`.
    SetRule { a: i32, b: i32 },
    /// A rule of height `a` and width `b`.
    PutRule { a: i32, b: i32 },
    Nop,
    /// A page begins: its ten counts, and the place of the `bop` before it, or -1.
    Bop { counts: [i32; 10], back: i32 },
    /// A page ends.
    Eop,
    Push,
    Pop,
    Right(i32),
    W0,
    W(i32),
    X0,
    X(i32),
    Down(i32),
    Y0,
    Y(i32),
    Z0,
    Z(i32),
    /// Selects a font by its number.
    Fnt(i64),
    /// A special: bytes that mean something to some driver.
    Xxx(&'a [u8]),
    FntDef(Def<'a>),
    Pre(Head<'a>),
    Post(Tail),
    /// Ends the file: the place of `post`, and the version of the format.
    PostPost { back: u32, id: u8 },
}

/// Why no command was read. Each fault names the place of the operation byte.
#[derive(Clone, Copy, Debug, PartialEq, Eq, Drop, Error)]
pub enum OpFault {
    /// The byte there is 250 to 255: no command has it.
    #[error("Undefined")]
    Undefined(usize),
    /// The command there runs past the end of the bytes.
    #[error("Short")]
    Short(usize),
}
