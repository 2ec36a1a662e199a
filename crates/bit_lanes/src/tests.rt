//! Rows by a model that shares nothing with this crate, and blank bytes.

use super::{align_row, is_blank};
use std::alloc::AllocError;
use std::test::Fail;

/// In each line bytes, the place and the width of a row in their bits, and the bytes that hold it.
const ROWS: &str = "ab8c 3 3 40
ab8c 3 0 00
ab8c 0 16 ab8c
ab8c 8 8 8c
ab8c 16 0 0000
ab8c 7 9 c60000
ab8c 1 15 5718
82b70eee7f1a5039bef07ec2347f066ed08f5dc7512447e3404300026b6e545594a06568 0 288 82b70eee7f1a5039bef07ec2347f066ed08f5dc7512447e3404300026b6e545594a06568
82b70eee7f1a5039bef07ec2347f066ed08f5dc7512447e3404300026b6e545594a06568 5 283 56e1ddcfe34a0737de0fd8468fe0cdda11ebb8ea2488fc680860004d6dca8ab2940cad0000000000
82b70eee7f1a5039bef07ec2347f066ed08f5dc7512447e3404300026b6e545594a06568 13 128 e1ddcfe34a0737de0fd8468fe0cdda11
82b70eee7f1a5039bef07ec2347f066ed08f5dc7512447e3404300026b6e545594a06568 3 265 15b87773f8d281cdf783f611a3f83376847aee3a89223f1a021800135b72a2aca500
82b70eee7f1a5039bef07ec2347f066ed08f5dc7512447e3404300026b6e545594a06568 24 144 ee7f1a5039bef07ec2347f066ed08f5dc7510000
82b70eee7f1a5039bef07ec2347f066ed08f5dc7512447e3404300026b6e545594a06568 160 127 512447e3404300026b6e545594a0656800";

/// The value of a hexadecimal digit.
fn digit(byte: u8) -> u8 {
    match byte {
        b'0'..=b'9' => byte - b'0',
        b'a'..=b'f' => byte - b'a' + 10,
        _ => 0,
    }
}

/// Appends the bytes that hexadecimal digits spell.
fn spell(bytes: &mut Vec<u8>, digits: &str) -> Result<(), AllocError> {
    let mut value = 0u8;
    for (place, byte) in digits.bytes().enumerate() {
        value = value.wrapping_mul(16).wrapping_add(digit(byte));
        if place % 2 == 1 {
            bytes.push(value)?;
        }
    }
    Ok(())
}

#[test]
fn rows(rt: HostRuntime) -> Result<(), Fail> {
    for line in ROWS.lines() {
        let mut fields = line.split(' ');
        let mut from = Vec::new(rt.alloc());
        spell(&mut from, fields.next().ok_or("bytes")?)?;
        let start: usize = fields.next().ok_or("a place")?.parse()?;
        let width: usize = fields.next().ok_or("a width")?.parse()?;
        let mut want = Vec::new(rt.alloc());
        spell(&mut want, fields.next().ok_or("a row")?)?;
        let mut row = vec![in rt.alloc(); 0xff_u8; want.len()]?;
        if from.len() > 99 || start > 800 || width > 8 * 99 || start + width > 8 * from.len() {
            return Err("a row that isn't there")?;
        }
        if row.len() > 99 || width > 8 * row.len() {
            return Err("no room for the row")?;
        }
        align_row(&from, start, width, &mut row);
        assert_eq!(rt; row.as_slice(), want.as_slice(), "{line}");
    }
    Ok(())
}

#[test]
fn blank_bytes(rt: HostRuntime) -> Result<(), Fail> {
    assert!(rt; is_blank(&[]));
    for len in [1, 15, 16, 17, 32, 100] {
        let mut bytes = vec![in rt.alloc(); 0_u8; len]?;
        assert!(rt; is_blank(&bytes), "{len} bytes");
        for place in 0..len {
            bytes[place] = 1;
            assert!(rt; !is_blank(&bytes), "a 1 in byte {place} of {len}");
            bytes[place] = 0;
        }
    }
    Ok(())
}
