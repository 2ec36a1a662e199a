//! Names of files, and of fonts.
ghost use Rattle.std.specs.Prelude.{◌≡◌, ◌<◌, ◌≤◌, length, IsTrue, ◌↔◌, MatchBool, MatchOption};
ghost use Rattle.dv_base.specs.FileName.{text_of};
ghost use Rattle.dv_base.specs.FontName.{IsFontName, IsNameByte};

use arrayvec::ArrayString;

/// A name of at most 540 bytes: of a font, of a file on a shelf or of an output.
///
/// It is kept in place, so that a fault can carry a name and need no memory.
#[derive(Clone, Copy, PartialEq, Eq, Hash, Drop)]
pub struct FileName {
    text: ArrayString<{ FileName::LONGEST }>,
}

impl FileName {
    /// The longest name, in bytes.
    pub const LONGEST: usize = 540;

    /// Keeps the text; `None` exactly where it has more than 540 bytes.
    pub fn new(text: &str) -> Option<FileName>
        ensures { MatchOption result (540 < length text.now) (λ name. text_of name ≡ text.now) }
    {
        match ArrayString::from(text) {
            Ok(text) => Some(FileName { text }),
            Err(_) => None,
        }
    }

    /// Lends the text.
    pub fn as_str(&self) -> &str
        ensures value { result.now ≡ text_of self.now }
        ensures fits { length result.now ≤ 540 }
    {
        self.text.as_str()
    }
}

/// The longest name of a font, in bytes.
const LONGEST_FONT: usize = 255;

/// Whether a byte may stand in a font's name: a visible ASCII character other than `/`.
fn is_name_byte(byte: u8) -> bool
    ensures { IsTrue result ↔ IsNameByte byte }
{
    33 <= byte && byte <= 126 && byte != b'/'
}

/// Whether a font may have this name, its area included: it is to have 1 to 255 bytes, each a visible ASCII character other than `/`,
/// since it becomes the name of a file.
pub fn is_font_name(name: &[u8]) -> bool
    ensures { MatchBool result (IsFontName name.now) (IsFontName name.now → ⊥) }
{
    if name.is_empty() || name.len() > LONGEST_FONT {
        return false;
    }
    for byte in name {
        if !is_name_byte(*byte) {
            return false;
        }
    }
    true
}

/// A font's name, its area included, as a text; `None` exactly where no font may have this name.
pub fn font_name(name: &[u8]) -> Option<FileName>
    ensures { MatchOption result (IsFontName name.now → ⊥) (λ text. IsFontName name.now × (text_of text ≡ name.now)) }
{
    if !is_font_name(name) {
        return None;
    }
    match str::from_utf8(name) {
        Ok(text) => FileName::new(text),
        Err(_) => unreachable!(),
    }
}
