//! Files with what the format says of them, put together by a writer that shares nothing with this crate.

use super::{Local, Vf, VfFault};
use std::alloc::{AllocError, Global};
use std::test::Fail;

/// A preamble with the comment "hi", the checksum 0x12345678 and the design size 10.
const HEAD: &str = "f7 ca 02 6869 12345678 00a00000";

/// In each line the answer; what stands behind the preamble, from place 13 on; and what it shows. The fields of a definition are its
/// operation byte, number, checksum, size, design size, two lengths and name; those of a packet its length, code, width and commands.
const FILES: &str = "accepted|f8|nothing but the end
accepted|f3 00 00000001 00100000 00a00000 00 05 636d723130 01 41 000000 41 f8 f8 f8|a font, a packet and three bytes 248
accepted|f3 00 00000001 00100000 00a00000 00 05 636d723130 f3 01 00000001 00100000 00a00000 00 05 636d723130 f8|two numbers of one font
accepted|00 41 000000 f1 42 000000 8a8a8a8a8a8a8a8a8a8a8a8a8a8a8a8a8a8a8a8a8a8a8a8a8a8a8a8a8a8a8a8a8a8a8a8a8a8a8a8a8a8a8a8a8a8a8a8a8a8a8a8a8a8a8a8a8a8a8a8a8a8a8a8a8a8a8a8a8a8a8a8a8a8a8a8a8a8a8a8a8a8a8a8a8a8a8a8a8a8a8a8a8a8a8a8a8a8a8a8a8a8a8a8a8a8a8a8a8a8a8a8a8a8a8a8a8a8a8a8a8a8a8a8a8a8a8a8a8a8a8a8a8a8a8a8a8a8a8a8a8a8a8a8a8a8a8a8a8a8a8a8a8a8a8a8a8a8a8a8a8a8a8a8a8a8a8a8a8a8a8a8a8a8a8a8a8a8a8a8a8a8a8a8a8a8a8a8a8a8a8a8a8a8a8a8a8a8a8a8a8a8a8a8a8a8a8a8a8a8a8a8a8a8a8a8a8a8a8a8a8a8a8a8a8a8a8a8a8a8a8a8a8a8a8a8a8a8a8a8a8a f2 000000f2 00000043 00000000 8a8a8a8a8a8a8a8a8a8a8a8a8a8a8a8a8a8a8a8a8a8a8a8a8a8a8a8a8a8a8a8a8a8a8a8a8a8a8a8a8a8a8a8a8a8a8a8a8a8a8a8a8a8a8a8a8a8a8a8a8a8a8a8a8a8a8a8a8a8a8a8a8a8a8a8a8a8a8a8a8a8a8a8a8a8a8a8a8a8a8a8a8a8a8a8a8a8a8a8a8a8a8a8a8a8a8a8a8a8a8a8a8a8a8a8a8a8a8a8a8a8a8a8a8a8a8a8a8a8a8a8a8a8a8a8a8a8a8a8a8a8a8a8a8a8a8a8a8a8a8a8a8a8a8a8a8a8a8a8a8a8a8a8a8a8a8a8a8a8a8a8a8a8a8a8a8a8a8a8a8a8a8a8a8a8a8a8a8a8a8a8a8a8a8a8a8a8a8a8a8a8a8a8a8a8a8a8a8a8a8a8a8a8a8a8a8a8a8a8a8a8a8a8a8a8a8a8a8a8a8a8a8a8a8a8a8a8a8a8a8a8a f2 00000000 00000044 00000000 f8|packets of 0, 241 and 242 bytes, and a long one of none
accepted|f2 00000002 00000100 00000000 8b8b f2 00000001 00000100 00000000 ff f8|a code above 255, twice, with bytes that are no commands
accepted|f3 00 00000001 00100000 00a00000 00 05 636d723130 f2 000000ac 00000041 00000000 4180418100418200004183ffffffff84000000010000000285418600418700004188ffffffff8900000001000000028a8d8e8f019000019100000192000000019394019500019600000197000000019899019a00019b0000019c000000019d019e00019f000001a000000001a1a201a30001a4000001a500000001a6a701a80001a9000001aa00000001abeaeb05ec0005ed000005ee00000005ef0178f0000178f100000178f20000000178 f8|a packet with each kind of command
accepted|f3 00 00000001 00100000 00a00000 00 ff 787878787878787878787878787878787878787878787878787878787878787878787878787878787878787878787878787878787878787878787878787878787878787878787878787878787878787878787878787878787878787878787878787878787878787878787878787878787878787878787878787878787878787878787878787878787878787878787878787878787878787878787878787878787878787878787878787878787878787878787878787878787878787878787878787878787878787878787878787878787878787878787878787878787878787878787878787878787878787878787878787878787878787878787878787878 f3 01 00000001 00100000 00a00000 00 5d 2122232425262728292a2b2c2d2e303132333435363738393a3b3c3d3e3f404142434445464748494a4b4c4d4e4f505152535455565758595a5b5c5d5e5f606162636465666768696a6b6c6d6e6f707172737475767778797a7b7c7d7e f8|names of 255 bytes and of all allowed bytes
BadOrder(39)|15 41 000000 414141414141414141414141414141414141414141 f3 00 00000001 00100000 00a00000 00 05 636d723130 f8|a definition behind a packet
BadOrder(13)|f7 f8|a byte 247 where a definition is due
BadOrder(34)|f3 00 00000001 00100000 00a00000 00 05 636d723130 f9 f8|a byte 249 where a packet is due
BadOrder(19)|01 41 000000 41 ff f8|a byte 255 behind a packet
Short(34)|f3 00 00000001 00100000 00a00000 00 05 636d723130 f3 01 00000001 00100000 00a00000 00 05 636d7231|a definition that is cut
Short(13)|f3 00|the numbers of a definition that are cut
Short(34)|f3 00 00000001 00100000 00a00000 00 05 636d723130 02 41 000000 41|a packet that is cut
Short(13)|f2 00000002 00000041 00000000 41|a long packet that is cut
Short(13)|f2 0000|the length of a long packet that is cut
BadOp(65)|2d 41 000000 8b0000000000000000000000000000000000000000000000000000000000000000000000000000000000000000 f8|bop
BadOp(65)|02 41 000000 418c f8|eop
BadOp(255)|15 ff 000000 f300000000010010000000a000000005636d723130 f8|a definition inside a packet
BadOp(65)|0f 41 000000 f702018392c01c3b0000000003e800 f8|pre
BadOp(65)|f2 0000001d 00000041 00000000 f800000000000000000000000000000000000000000000000000000000 f8|post
BadOp(65)|06 41 000000 f90000000002 f8|post_post
BadOp(65)|02 41 000000 41fa f8|a byte 250
BadOp(65)|02 41 000000 4180 f8|set1 without its code
BadOp(65)|03 41 000000 ef0278 f8|a special that is cut
Twice(65)|01 41 000000 41 f2 00000001 00000041 00000000 42 f8|a code twice
FontTwice(5)|f3 05 00000001 00100000 00a00000 00 05 636d723130 f4 0005 00000001 00100000 00a00000 00 04 636d7239 f8|a number twice, in one byte and in two
FontTwice(-1)|f6 ffffffff 00000001 00100000 00a00000 00 01 61 f6 ffffffff 00000001 00100000 00a00000 00 01 62 f8|a number below 0 twice
BadName(7)|f3 07 00000001 00100000 00a00000 00 00 f8|an empty name
BadName(7)|f3 07 00000001 00100000 00a00000 01 ff 78787878787878787878787878787878787878787878787878787878787878787878787878787878787878787878787878787878787878787878787878787878787878787878787878787878787878787878787878787878787878787878787878787878787878787878787878787878787878787878787878787878787878787878787878787878787878787878787878787878787878787878787878787878787878787878787878787878787878787878787878787878787878787878787878787878787878787878787878787878787878787878787878787878787878787878787878787878787878787878787878787878787878787878787878787878 f8|a name of 256 bytes
BadName(7)|f3 07 00000001 00100000 00a00000 00 03 612062 f8|a space in a name
BadName(7)|f3 07 00000001 00100000 00a00000 00 02 617f f8|a byte 127 in a name
BadName(7)|f3 07 00000001 00100000 00a00000 02 05 612f636d723130 f8|a slash in an area
NoPost||no byte behind the preamble
NoPost|f3 00 00000001 00100000 00a00000 00 05 636d723130|no byte behind a definition
NoPost|f3 00 00000001 00100000 00a00000 00 05 636d723130 01 41 000000 41|no byte behind a packet
NoPost|f8 01 41 000000 41 f8|a packet behind a byte 248
NoPost|f8 f8 f9|a byte 249 behind bytes 248";

/// Two local fonts, 3 and -2, and the packets of the codes 65 and 0.
const WHOLE: &str =
    "f3 03 01020304 fff00000 00a00000 01 05 78636d723130 f6 fffffffe 00000001 00100000 00a00000 00 04 636d7239 02 41 000000 4142 f2 00000002 00000000 00000000 abab 00 ff 000000 f8";

/// In each line a code and its packet there.
const PACKETS: &str = "65 4142
0 abab
255 ";

/// Preambles that are none: of no byte, cut, with another id or another first byte, with a comment that is cut.
const HEADS: &str = "
f7
f7c9
f6ca0268691234567800a00000
f7c90268691234567800a00000
f7caff68691234567800a00000
";

/// The value of a hexadecimal digit.
fn digit(byte: u8) -> u8 {
    match byte {
        b'0'..=b'9' => byte - b'0',
        b'a'..=b'f' => byte - b'a' + 10,
        _ => 0,
    }
}

/// Appends the bytes that hexadecimal digits spell; spaces part the fields.
fn spell(bytes: &mut Vec<u8>, digits: &str) -> Result<(), AllocError> {
    let mut value = 0u8;
    let digits = digits.bytes().filter(|byte| *byte != b' ');
    for (place, byte) in digits.enumerate() {
        value = value.wrapping_mul(16).wrapping_add(digit(byte));
        if place % 2 == 1 {
            bytes.push(value)?;
        }
    }
    Ok(())
}

/// A file of a preamble, and what stands behind it.
fn file(alloc: Global, head: &str, body: &str) -> Result<Vec<u8>, AllocError> {
    let mut bytes = Vec::new(alloc);
    spell(&mut bytes, head)?;
    spell(&mut bytes, body)?;
    Ok(bytes)
}

/// What a local font says.
fn said(alloc: Global, font: Option<&Local>) -> Result<String, AllocError> {
    match font {
        Some(font) => format!(in alloc;
            "{} {} {} {} {}",
            font.k,
            font.checksum,
            font.scale,
            font.design,
            font.name.as_str()
        ),
        None => format!(in alloc; "nothing"),
    }
}

#[test]
fn files(rt: HostRuntime) -> Result<(), Fail> {
    for line in FILES.lines() {
        let mut fields = line.split('|');
        let want = fields.next().ok_or("an answer")?;
        let bytes = file(rt.alloc(), HEAD, fields.next().ok_or("a body")?)?;
        let answer = match Vf::read(rt.alloc(), bytes) {
            Ok(_) => format!(in rt.alloc(); "accepted")?,
            Err(fault) => format!(in rt.alloc(); "{fault:?}")?,
        };
        assert_eq!(rt; answer.as_str(), want, "{line}");
    }
    Ok(())
}

#[test]
fn local_fonts(rt: HostRuntime) -> Result<(), Fail> {
    let vf = Vf::read(rt.alloc(), file(rt.alloc(), HEAD, WHOLE)?)?;
    let first = vf.first_local().ok_or("no first font")?;
    let fonts = format!(in rt.alloc();
        "{}, {}, {}",
        said(rt.alloc(), vf.local(first))?,
        said(rt.alloc(), vf.local(-2))?,
        said(rt.alloc(), vf.local(0))?
    )?;
    assert_eq!(rt;
        fonts.as_str(),
        "3 16909060 -1048576 10485760 xcmr10, -2 1 1048576 10485760 cmr9, nothing"
    );
    assert_eq!(rt; vf.checksum(), 0x1234_5678);
    Ok(())
}

#[test]
fn packets(rt: HostRuntime) -> Result<(), Fail> {
    let vf = Vf::read(rt.alloc(), file(rt.alloc(), HEAD, WHOLE)?)?;
    for line in PACKETS.lines() {
        let (code, digits) = line.split_once(' ').ok_or("a code and bytes")?;
        let code: u8 = code.parse()?;
        let mut want = Vec::new(rt.alloc());
        spell(&mut want, digits)?;
        let commands = vf.packet(code).ok_or("no packet")?;
        assert_eq!(rt; commands, want.as_slice(), "{line}");
    }
    assert!(rt; vf.packet(66).is_none());
    Ok(())
}

#[test]
fn fronts(rt: HostRuntime) -> Result<(), Fail> {
    let whole = file(rt.alloc(), HEAD, WHOLE)?;
    for end in 0..whole.len() {
        let front = whole[..end].to_vec(rt.alloc())?;
        assert!(rt; Vf::read(rt.alloc(), front).is_err(), "{end} bytes");
    }
    Ok(())
}

#[test]
fn heads(rt: HostRuntime) -> Result<(), Fail> {
    for head in HEADS.lines() {
        let bytes = file(rt.alloc(), head, "")?;
        assert_eq!(rt;
            Vf::read(rt.alloc(), bytes).err(),
            Some(VfFault::BadPreamble),
            "{head}"
        );
    }
    Ok(())
}

#[test]
fn faults_in_words(rt: HostRuntime) -> Result<(), Fail> {
    let names: [(VfFault, &str); 9] = [
        (VfFault::BadPreamble, "BadPreamble"),
        (VfFault::BadOrder(1), "BadOrder"),
        (VfFault::Short(1), "Short"),
        (VfFault::BadOp(1), "BadOp"),
        (VfFault::Twice(1), "Twice"),
        (VfFault::FontTwice(1), "FontTwice"),
        (VfFault::BadName(1), "BadName"),
        (VfFault::NoPost, "NoPost"),
        (VfFault::OutOfMemory, "OutOfMemory"),
    ];
    for (fault, name) in names {
        assert_eq!(rt; format!(in rt.alloc(); "{fault}")?.as_str(), name);
    }
    super::one_font();
    Ok(())
}
