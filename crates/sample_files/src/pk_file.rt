//! The bitmaps of the font.
ghost use Rattle.std.specs.Prelude.{◌≡◌, ◌+◌, ◌*◌, ◌<◌, ◌≤◌, ◌^◌, ◌++◌, OnOk, IfOk};
ghost use Rattle.sample_files.specs.Bitmaps.{glyph, glyphs, head, octet, pixel, pixels_across, pk, raster};

use std::alloc::{AllocError, Global};

/// The preamble: no comment, ten points, check sum 0, and 300 dots an inch across and down.
const HEAD: [u8; 19] = [
    247, 89, 0, 0, 160, 0, 0, 0, 0, 0, 0, 0, 4, 38, 174, 0, 4, 38, 174,
];

/// The pixel at a place of a glyph's rows, joined without gaps: 1 where it is black, and 0 behind the last row.
fn pixel(glyph: u32, at: u32) -> u8
    requires { glyph < 16 }
    ensures value { result ≡ pixel glyph at }
    ensures small { result ≤ 1 }
{
    let width = 8 + glyph;
    if at < 12 * width && (at / width + at % width) % (glyph + 2) == 0 {
        1
    } else {
        0
    }
}

/// The eight pixels from a place on, as a byte: the first is its highest bit.
#[tactic(auto, unfolding(crate::specs::Bitmaps::octet))]
fn octet(glyph: u32, at: u32) -> u8
    requires glyph { glyph < 16 }
    requires place { at < 512 }
    ensures { result ≡ octet glyph at }
{
    128 * pixel(glyph, at)
        + 64 * pixel(glyph, at + 1)
        + 32 * pixel(glyph, at + 2)
        + 16 * pixel(glyph, at + 3)
        + 8 * pixel(glyph, at + 4)
        + 4 * pixel(glyph, at + 5)
        + 2 * pixel(glyph, at + 6)
        + pixel(glyph, at + 7)
}

/// Appends the rows of a glyph.
fn put_raster(bytes: &mut Vec<u8>, glyph: u32, length: u32) -> Result<(), AllocError>
    requires glyph { glyph < 16 }
    requires length { length ≤ 40 }
    ensures { OnOk result (bytes.new.items ≡ bytes.old.items ++ raster glyph length) }
{
    for place in 0..length {
        bytes.push(octet(glyph, 8 * place))?;
    }
    Ok(())
}

/// How many pixels wide a glyph's character is.
fn pixels_across(glyph: u32) -> u8
    requires { glyph < 16 }
    ensures { result ≡ pixels_across glyph }
{
    let scaled_points = u64::from(327_680 + 10_240 * glyph);
    ((scaled_points * 30_000 + 236_814_336) / 473_628_672) as u8
}

/// Appends what stands before the rows of a glyph.
fn put_head(bytes: &mut Vec<u8>, glyph: u32, length: u32) -> Result<(), AllocError>
    requires glyph { glyph < 16 }
    requires length { length ≤ 40 }
    ensures { OnOk result (bytes.new.items ≡ bytes.old.items ++ head glyph length) }
{
    let [_, high, middle, low] = (524_288 + 16_384 * glyph).to_be_bytes();
    bytes.extend_from_slice(&[
        224,
        (8 + length) as u8,
        (65 + glyph) as u8,
        high,
        middle,
        low,
    ])?;
    bytes.extend_from_slice(&[pixels_across(glyph), (8 + glyph) as u8, 12, 0, 11])
}

/// Appends a glyph, counted from 0.
#[tactic(auto, unfolding(crate::specs::Bitmaps::glyph))]
fn put_glyph(bytes: &mut Vec<u8>, number: u32) -> Result<(), AllocError>
    requires { number < 16 }
    ensures { OnOk result (bytes.new.items ≡ bytes.old.items ++ glyph number) }
{
    let length = (12 * (8 + number)).div_ceil(8);
    put_head(bytes, number, length)?;
    put_raster(bytes, number, length)
}

fn put_glyphs(bytes: &mut Vec<u8>) -> Result<(), AllocError>
    ensures { OnOk result (bytes.new.items ≡ bytes.old.items ++ glyphs 16) }
{
    for number in 0..16 {
        put_glyph(bytes, number)?;
    }
    Ok(())
}

/// The bytes of `smp.300pk`.
pub fn bitmaps(alloc: Global) -> Result<Vec<u8>, AllocError>
    ensures { IfOk result (λ bytes. bytes.items ≡ pk) }
{
    let mut bytes = Vec::with_capacity(alloc, 572)?;
    bytes.extend_from_slice(&HEAD)?;
    put_glyphs(&mut bytes)?;
    bytes.push(245)?;
    Ok(bytes)
}
