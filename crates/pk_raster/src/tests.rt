//! Glyphs and files with what the format says of them, worked out by an encoder that shares nothing with this crate.

use super::{Look, Pk, PkFault};
use std::alloc::{AllocError, Global};
use std::test::Fail;

/// A preamble with the comment "hi" and the checksum 0x12345678.
const HEAD: &str = "f7 59 02 6869 00a00000 12345678 00000000 00000000";

/// In each line w, h, hoff and voff; a character of code 65, whose fields are the flag byte, the length, the code, the width, the
/// escapement, w, h, hoff, voff and the raster; the bytes of its rows; and what it shows.
const GLYPHS: &str =
    "3 5 0 4|e0 0a 41 080000 15 03 05 00 04 ab8c|a040e000c0|three by five pixels without padding between the rows
4 3 0 2|88 0a 41 080000 15 04 03 00 02 2f24|c0c0f0|a repeat inside a row, and a run over its end
11 6 -3 5|00 10 41 000000 00 0b 06 fd 05 f111413e111b1810|3e003e00ffe0ffe0ffe08020|dyn_f 0
11 6 -2 5|0c 0015 41 000000 0000 000b 0006 fffe 0005 f1116111fe111014|c060c0600000040004000400|dyn_f 0
11 6 -3 4|14 0015 41 000000 0000 000b 0006 fffd 0004 f202322e202a2710|3e003e00ffe0ffe0ffe08020|dyn_f 1
11 6 -2 4|1f 00000024 00000041 00000000 00000000 00000000 0000000b 00000006 fffffffe 00000004 f2025202ee201230|c060c0600000040004000400|dyn_f 1
11 6 -3 3|27 00000023 00000041 00000000 00000000 00000000 0000000b 00000006 fffffffd 00000003 f23231e2393610|3e003e00ffe0ffe0ffe08020|dyn_f 2
11 6 -2 3|28 0e 41 000000 00 0b 06 fe 03 f23423de2132|c060c0600000040004000400|dyn_f 2
11 6 -3 2|30 0f 41 000000 00 0b 06 fd 02 f24140e2484510|3e003e00ffe0ffe0ffe08020|dyn_f 3
11 6 -2 2|3c 0013 41 000000 0000 000b 0006 fffe 0002 f24324ce2141|c060c0600000040004000400|dyn_f 3
11 6 -3 1|44 0013 41 000000 0000 000b 0006 fffd 0001 f2504e257541|3e003e00ffe0ffe0ffe08020|dyn_f 4
11 6 -2 1|4f 00000022 00000041 00000000 00000000 00000000 0000000b 00000006 fffffffe 00000001 f25225be2150|c060c0600000040004000400|dyn_f 4
11 6 -3 0|57 00000022 00000041 00000000 00000000 00000000 0000000b 00000006 fffffffd 00000000 f254e2666310|3e003e00ffe0ffe0ffe08020|dyn_f 5
11 6 -2 0|58 0e 41 000000 00 0b 06 fe 00 f26126ae2150|c060c0600000040004000400|dyn_f 5
11 6 -3 -1|60 0e 41 000000 00 0b 06 fd ff f254e2757210|3e003e00ffe0ffe0ffe08020|dyn_f 6
11 6 -2 -1|6c 0013 41 000000 0000 000b 0006 fffe ffff f270279e2150|c060c0600000040004000400|dyn_f 6
11 6 -3 -2|74 0013 41 000000 0000 000b 0006 fffd fffe f254e2848110|3e003e00ffe0ffe0ffe08020|dyn_f 7
11 6 -2 -2|7f 00000021 00000041 00000000 00000000 00000000 0000000b 00000006 fffffffe fffffffe f27288e215|c060c0600000040004000400|dyn_f 7
11 6 -3 -3|87 00000022 00000041 00000000 00000000 00000000 0000000b 00000006 fffffffd fffffffd f254e2939010|3e003e00ffe0ffe0ffe08020|dyn_f 8
11 6 -2 -3|88 0d 41 000000 00 0b 06 fe fd f27297e215|c060c0600000040004000400|dyn_f 8
11 6 -3 -4|90 0d 41 000000 00 0b 06 fd fc f254e2a291|3e003e00ffe0ffe0ffe08020|dyn_f 9
11 6 -2 -4|9c 0012 41 000000 0000 000b 0006 fffe fffc f272a6e215|c060c0600000040004000400|dyn_f 9
11 6 -3 -5|a4 0012 41 000000 0000 000b 0006 fffd fffb f254e2b191|3e003e00ffe0ffe0ffe08020|dyn_f 10
11 6 -2 -5|af 00000021 00000041 00000000 00000000 00000000 0000000b 00000006 fffffffe fffffffb f272b5e215|c060c0600000040004000400|dyn_f 10
11 6 -3 -6|b7 00000021 00000041 00000000 00000000 00000000 0000000b 00000006 fffffffd fffffffa f254e2c091|3e003e00ffe0ffe0ffe08020|dyn_f 11
11 6 -2 -6|b8 0d 41 000000 00 0b 06 fe fa f272c4e215|c060c0600000040004000400|dyn_f 11
11 6 -3 -7|c0 0d 41 000000 00 0b 06 fd f9 f254e2c910|3e003e00ffe0ffe0ffe08020|dyn_f 12
11 6 -2 -7|cc 0012 41 000000 0000 000b 0006 fffe fff9 f272d3e215|c060c0600000040004000400|dyn_f 12
11 6 -3 -8|d4 0012 41 000000 0000 000b 0006 fffd fff8 f254e2c910|3e003e00ffe0ffe0ffe08020|dyn_f 13
11 6 -2 -8|df 00000022 00000041 00000000 00000000 00000000 0000000b 00000006 fffffffe fffffff8 f272012e2150|c060c0600000040004000400|dyn_f 13
11 6 -3 -9|e7 00000025 00000041 00000000 00000000 00000000 0000000b 00000006 fffffffd fffffff7 3e07c3ffffffff0040|3e003e00ffe0ffe0ffe08020|dyn_f 14
11 6 -2 -9|e8 11 41 000000 00 0b 06 fe f7 c0780c000200400800|c060c0600000040004000400|dyn_f 14
20 2 127 -128|88 0a 41 000000 00 14 02 7f 80 f9b0|fffff0fffff0|a run behind a repeat count
10 15 -32768 32767|8c 0010 41 000000 0000 000a 000f 8000 7fff 01bb90|ffc0ffc0ffc0ffc0ffc0ffc0ffc0ffc0ffc0ffc000000000000000000000|runs of 100 and of 50
0 3 1 2|80 08 41 000000 00 00 03 01 02||no columns
7 0 -2147483648 2147483647|ef 0000001c 00000041 00000000 00000000 00000000 00000007 00000000 80000000 7fffffff||no rows
5 1 0 0|d8 09 41 000000 00 05 01 00 00 5f|f8|a nybble unused";

/// In each line the answer; what stands behind the preamble; and what it shows.
const FILES: &str = "accepted|f5|nothing at all
accepted|f0 01 78 f1 0002 7878 f2 000000 f3 00000001 78 f4 01020304 f6 f6 f5 f6 f6|specials of one to four bytes, a number and nops
accepted|07 00000003 00000100 010203 07 00000003 00000100 010203 f5|a code above 255, twice, with sizes cut short
accepted|00 08 40 000000 00 00 00 00 00 00 08 41 000000 00 00 00 00 00 f5|codes 64 and 65
Undefined(21)|f7 f5|a flag byte 247
Undefined(22)|f6 ff f5|a flag byte 255 behind a nop
Undefined(23)|f5 f6 fa|a byte 250 behind the postamble
Undefined(22)|f5 f5|a byte 245 behind the postamble
Short(21)|f0 05 0102|a special that is cut
Short(22)|f6 f3 000000|the length of a special that is cut
Short(21)|f4 000000|a number that is cut
Short(21)|89 0a 41 080000 15 04 03 00 02 2f24f5|a length of 266, in two bits and a byte
Short(21)|0d 0012 41 000000 0000 0008 ffff 0000 0000 00007ff370f5|a length of 65,554, in two bits and two bytes
Short(21)|00 08 41 000000 00 00 00 00|a character that is cut
Short(21)|07 00000000 000000|the code of a character that is cut
NoPost||no body
NoPost|f6 00 08 41 000000 00 00 00 00 00|no end of the body
Twice(65)|00 08 41 000000 00 00 00 00 00 00 08 41 000000 00 00 00 00 00 f5|a code twice
Twice(65)|07 0000001c 00000041 00000000 00000000 00000000 00000008 00010000 00000000 00000000 00 08 41 000000 00 00 00 00 00 f5|a code twice, once too big
BadLength(65)|00 07 41 000000 00 00 00 00 f5|seven bytes of sizes
BadLength(65)|04 000c 41 000000 0000 0000 0000 0000 00 f5|twelve bytes of sizes
BadLength(255)|07 0000001b 000000ff 00000000 00000000 00000000 00000000 00000000 00000000 000000 f5|27 bytes of sizes
BadLength(65)|00 09 41 000000 00 00 05 00 00 12 f5|a raster without pixels
BadLength(65)|e0 0b 41 080000 15 03 05 00 04 ab8c00 f5|a byte more than the pixels
BadLength(65)|88 0b 41 080000 15 04 03 00 02 2f2400 f5|a byte more than the runs
BadLength(65)|88 0b 41 080000 15 04 03 00 02 2f2411 f5|two runs behind the last row
RunsShort(65)|e0 09 41 080000 15 03 05 00 04 ab f5|a byte less than the pixels
RunsShort(65)|88 09 41 080000 15 04 03 00 02 2f f5|a byte less than the runs
RunsShort(65)|88 0a 41 080000 15 04 03 00 02 0001 f5|a number that is cut
RunsShort(65)|88 0a 41 080000 15 04 03 00 02 0000 f5|nybbles 0 and nothing else
RunsShort(65)|88 09 41 080000 15 04 03 00 02 2e f5|a repeat count that is cut
RunsPast(65)|88 0a 41 080000 15 04 03 00 02 2f25 f5|a run past the last row
RunsPast(65)|88 0a 41 080000 15 04 03 00 02 e324 f5|a repeat past the last row
RunsPast(65)|88 19 41 080000 15 04 03 00 02 0000000000000000100000000000000000 f5|a run of 2 ^ 64
RepeatTwice(65)|88 0a 41 080000 15 02 02 00 02 f1f1 f5|two repeat counts in the first base row
RepeatTwice(65)|88 0a 41 080000 15 02 02 00 02 ef11 f5|a repeat count inside another, of 15
RepeatTwice(65)|88 0a 41 080000 15 02 02 00 02 ee11 f5|a repeat count inside another, of 14";

/// The value of a hexadecimal digit.
fn digit(byte: u8) -> u8 {
    match byte {
        b'0'..=b'9' => byte - b'0',
        b'a'..=b'f' => byte - b'a' + 10,
        _ => 0,
    }
}

/// Appends the bytes that hexadecimal digits spell; spaces part the fields.
fn spell(bytes: &mut Vec<u8>, digits: &str) -> Result<(), AllocError> {
    let mut value = 0u8;
    let digits = digits.bytes().filter(|byte| *byte != b' ');
    for (place, byte) in digits.enumerate() {
        value = value.wrapping_mul(16).wrapping_add(digit(byte));
        if place % 2 == 1 {
            bytes.push(value)?;
        }
    }
    Ok(())
}

/// A file of a preamble, parts of the body, and an end.
fn file(alloc: Global, body: &str, end: &str) -> Result<Vec<u8>, AllocError> {
    let mut bytes = Vec::new(alloc);
    spell(&mut bytes, HEAD)?;
    spell(&mut bytes, body)?;
    spell(&mut bytes, end)?;
    Ok(bytes)
}

/// The sizes and rows that a look shows.
fn shown<'a>(alloc: Global, look: Look<'a>) -> Result<(String, &'a [u8]), AllocError> {
    match look {
        Look::Here(glyph) => Ok((
            format!(in alloc; "{} {} {} {}", glyph.w, glyph.h, glyph.hoff, glyph.voff)?,
            glyph.rows,
        )),
        Look::TooBig(bytes) => Ok((format!(in alloc; "{bytes} bytes")?, &[])),
        Look::None => Ok((format!(in alloc; "nothing")?, &[])),
    }
}

#[test]
fn glyphs(rt: HostRuntime) -> Result<(), Fail> {
    for line in GLYPHS.lines() {
        let mut fields = line.split('|');
        let sizes = fields.next().ok_or("sizes")?;
        let bytes = file(rt.alloc(), fields.next().ok_or("a glyph")?, "f5")?;
        let mut rows = Vec::new(rt.alloc());
        spell(&mut rows, fields.next().ok_or("rows")?)?;
        let pk = Pk::read(rt.alloc(), &bytes, 1000)?;
        let (told, told_rows) = shown(rt.alloc(), pk.look(65))?;
        assert_eq!(rt; told.as_str(), sizes, "{line}");
        assert_eq!(rt; told_rows, rows.as_slice(), "{line}");
        assert!(rt; matches!(pk.look(66), Look::None), "{line}");
        assert_eq!(rt; pk.size(), rows.len() as u64, "{line}");
        assert_eq!(rt; pk.checksum(), 0x1234_5678, "{line}");
    }
    Ok(())
}

#[test]
fn files(rt: HostRuntime) -> Result<(), Fail> {
    for line in FILES.lines() {
        let mut fields = line.split('|');
        let want = fields.next().ok_or("an answer")?;
        let bytes = file(rt.alloc(), fields.next().ok_or("a body")?, "")?;
        let answer = match Pk::read(rt.alloc(), &bytes, 1000) {
            Ok(_) => format!(in rt.alloc(); "accepted")?,
            Err(fault) => {
                // A fault's text is its variant's name alone.
                let text = format!(in rt.alloc(); "{fault}")?;
                assert_eq!(rt; Some(text.as_str()), want.split('(').next(), "{line}");
                format!(in rt.alloc(); "{fault:?}")?
            }
        };
        assert_eq!(rt; answer.as_str(), want, "{line}");
    }
    Ok(())
}

#[test]
fn fronts(rt: HostRuntime) -> Result<(), Fail> {
    let mut bytes = file(rt.alloc(), "880a4108000015040300022f24f6", "f5")?;
    assert!(rt; Pk::read(rt.alloc(), &bytes, 3).is_ok());
    for end in 0..bytes.len() {
        assert!(rt;
            Pk::read(rt.alloc(), &bytes[..end], 3).is_err(),
            "{end} bytes"
        );
    }
    for byte in bytes.iter_mut().skip(1).take(1) {
        *byte = 88;
    }
    assert_eq!(rt;
        Pk::read(rt.alloc(), &bytes, 3).err(),
        Some(PkFault::BadPreamble)
    );
    Ok(())
}

#[test]
fn sums(rt: HostRuntime) -> Result<(), Fail> {
    let bytes = file(rt.alloc(), "e00a410800001503050004ab8c", "f5")?;
    assert_eq!(rt; Pk::read(rt.alloc(), &bytes, 4).err(), Some(PkFault::Space));
    assert_eq!(rt; Pk::read(rt.alloc(), &bytes, 5)?.size(), 5);

    // 8 by 65,535, one run of 524,280 pixels; and 8 by 65,536, whose raster isn't read.
    let bytes = file(
        rt.alloc(),
        "0c00124100000000000008ffff0000000000007ff370",
        "f5",
    )?;
    assert_eq!(rt;
        Pk::read(rt.alloc(), &bytes, 65_534).err(),
        Some(PkFault::Space)
    );
    let pk = Pk::read(rt.alloc(), &bytes, 65_535)?;
    let (sizes, rows) = shown(rt.alloc(), pk.look(65))?;
    assert_eq!(rt; sizes.as_str(), "8 65535 0 0");
    assert!(rt; rows.iter().all(|byte| *byte == 255));
    assert_eq!(rt; rows.len(), 65_535);
    let huge = "0f0000001d0000004100000000000000000000000000000008000100000000000000000000ff";
    let pk = Pk::read(rt.alloc(), &file(rt.alloc(), huge, "f5")?, 0)?;
    let (sizes, _rows) = shown(rt.alloc(), pk.look(65))?;
    assert_eq!(rt; sizes.as_str(), "65536 bytes");
    assert_eq!(rt; pk.size(), 0);
    Ok(())
}
