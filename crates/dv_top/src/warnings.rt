//! What a run warns of.
ghost use Rattle.std.specs.Prelude.{◌≡◌, ◌≤◌, ◌<◌, ◌+◌, ◌*◌, ◌++◌, length};
ghost use Rattle.dv_base.specs.FileName.{text_of};
ghost use Rattle.dv_base.specs.Tray.{Says};
ghost use Rattle.font_set.specs.Fonts.{key_at};
ghost use Rattle.dv_top.specs.Escaped.{escaped, escaped_byte, hex_digit, is_plain};
ghost use Rattle.dv_top.specs.Spoken.{SaysAll};
ghost use Rattle.dv_top.specs.Warnings.{checksum_line, checksum_lines, is_mismatched, special_line};

use dv_base::{FontId, Line, Tray};
use font_set::Fonts;

/// The hexadecimal digit of a number, in lower case.
fn hex_digit(number: u8) -> u8
    requires { number < 16 }
    ensures { result ≡ hex_digit number }
{
    if number < 10 {
        b'0' + number
    } else {
        b'a' - 10 + number
    }
}

/// Whether a message shows the byte as it is.
fn is_plain(byte: u8) -> bool
    ensures { result ≡ is_plain byte }
{
    32 <= byte && byte <= 126 && byte != b'\\'
}

/// Appends a byte as a message shows it: a visible ASCII character and a space as they are, any other byte and the backslash as a
/// backslash and two hexadecimal digits.
fn escape_byte(line: &mut Line, byte: u8)
    requires { length line.old + 3 ≤ 1024 }
    ensures value { line.new ≡ line.old ++ escaped_byte byte }
    ensures len { length line.new ≤ length line.old + 3 }
{
    if is_plain(byte) {
        line.text(&[byte]);
    } else {
        line.text(&[b'\\', hex_digit(byte / 16), hex_digit(byte % 16)]);
    }
}

/// Appends bytes as a message shows them.
fn escape(line: &mut Line, bytes: &[u8])
    requires { length line.old + length bytes.now * 3 ≤ 1024 }
    ensures { line.new ≡ line.old ++ escaped bytes.now }
{
    for byte in bytes {
        escape_byte(line, *byte);
    }
}

/// Says that nothing is done for the special that begins with these bytes.
pub(crate) fn say_special<T: Tray>(head: &[u8], tray: &mut T)
    requires { length head.now ≤ 255 }
    ensures { Says (special_line head.now) (T.seen tray.old) (T.seen tray.new) }
{
    let mut line = Line::new();
    line.text(b"texdvi: warning: special ");
    escape(&mut line, head);
    tray.say(line.as_slice());
}

/// Says that the checksums of a font don't agree.
fn say_checksum<T: Tray>(fonts: &Fonts, id: FontId, tray: &mut T)
    requires { id < length fonts.now.fonts }
    ensures { Says (checksum_line fonts.now id) (T.seen tray.old) (T.seen tray.new) }
{
    let mut line = Line::new();
    line.text(b"texdvi: warning: checksum ");
    line.text(fonts.key(id).name.as_str().as_bytes());
    tray.say(line.as_slice());
}

/// Whether the checksums of the font of that number don't agree.
fn is_mismatched(fonts: &Fonts, id: FontId) -> bool
    requires { id < length fonts.now.fonts }
    ensures { result ≡ is_mismatched fonts.now id }
{
    fonts.mismatch(id)
}

/// Says for each font whose checksums don't agree that it is so, in the order of their numbers.
pub fn say_checksums<T: Tray>(fonts: &Fonts, tray: &mut T)
    ensures { SaysAll (checksum_lines fonts.now) (T.seen tray.old) (T.seen tray.new) }
{
    for number in 0..fonts.count() {
        let Some(id) = FontId::new(number) else {
            unreachable!()
        };
        if is_mismatched(fonts, id) {
            say_checksum(fonts, id, tray);
        }
    }
}
