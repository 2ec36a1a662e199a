//! The codes of a string.
ghost use Rattle.std.specs.Prelude.{◌≡◌, take, drop, length};
ghost use Rattle.ps_subset.specs.Strings.{ReadsBack, escape};

/// Spells a code of a string, and answers how many bytes of `out` it took: a visible character or a space stands as it is, a parenthesis or a
/// backslash behind a backslash, any other code is a backslash and three octal digits. The bytes behind those stay.
///
/// Between any two others in a string the bytes are read as the code.
pub fn escape(code: u8, out: &mut [u8; 4]) -> usize
    ensures len { result ≡ length (escape code) }
    ensures spelled { take result out.new ≡ escape code }
    ensures kept { drop result out.new ≡ drop result out.old }
    ensures read_back { ReadsBack code (take result out.new) }
{
    if code == b'(' || code == b')' || code == b'\\' {
        out[0] = b'\\';
        out[1] = code;
        2
    } else if code >= b' ' && code <= b'~' {
        out[0] = code;
        1
    } else {
        out[0] = b'\\';
        out[1] = b'0' + code / 64;
        out[2] = b'0' + code / 8 % 8;
        out[3] = b'0' + code % 8;
        4
    }
}
