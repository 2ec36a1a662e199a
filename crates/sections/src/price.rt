//! What a glyph costs.
ghost use Rattle.std.specs.Prelude.{◌≡◌, ◌<◌, ◌≤◌, ◌+◌, ◌*◌, ◌/◌, ◌%◌, ℕ, length, slice_index_or, IfOk};
ghost use Rattle.sections.specs.Cost.{has_black, rows_cost, glyph_price};

use bit_lanes::is_blank;
use dv_base::FontId;
use font_set::Fonts;
use std::alloc::{AllocError, Global};

/// How many codes a font has.
pub const CODES: usize = 256;

/// What a used glyph costs beside its bitmap.
const GLYPH: u32 = 160;

/// Whether one of the bytes of a bitmap has a black pixel.
fn has_black(rows: &[u8]) -> bool
    ensures { result ≡ has_black rows.now }
{
    !is_blank(rows)
}

/// What the rows of a bitmap cost.
fn rows_cost(rows: &[u8]) -> u32
    requires { length rows.now ≤ 65535 }
    ensures value { result ≡ rows_cost rows.now }
    ensures bound { result ≤ 65535 }
{
    if has_black(rows) {
        rows.len() as u32
    } else {
        1
    }
}

/// What a used glyph costs.
fn glyph_price(fonts: &Fonts, id: FontId, code: u8) -> u32
    requires { id < length fonts.now.fonts }
    ensures value { result ≡ glyph_price fonts.now id code }
    ensures bound { result ≤ 65695 }
{
    match fonts.glyph(id, code) {
        Some(glyph) => GLYPH + rows_cost(glyph.rows),
        None => GLYPH,
    }
}

/// What the glyph at a place costs.
fn price_at(fonts: &Fonts, place: usize) -> u32
    requires place { place < length fonts.now.fonts * 256 }
    requires few { length fonts.now.fonts ≤ 1000 }
    ensures value { result ≡ glyph_price fonts.now (place / 256) (place % 256) }
    ensures bound { result ≤ 65695 }
{
    let code = (place % CODES) as u8;
    match FontId::new((place / CODES) as u32) {
        Some(id) => glyph_price(fonts, id, code),
        None => unreachable!(),
    }
}

/// What each glyph of the fonts costs, font by font.
pub fn prices(alloc: Global, fonts: &Fonts) -> Result<Vec<u32>, AllocError>
    ensures many { IfOk result (λ v. length v.items ≡ length fonts.now.fonts * 256) }
    ensures each { IfOk result (λ v. (p : ℕ) → p < length v.items → slice_index_or v.items p 0 ≡ glyph_price fonts.now (p / 256) (p % 256)) }
    ensures bound { IfOk result (λ v. (p : ℕ) → slice_index_or v.items p 0 ≤ 65695) }
{
    let many = fonts.count() as usize * CODES;
    let mut prices = Vec::new(alloc);
    for place in 0..many {
        prices.push(price_at(fonts, place))?;
    }
    Ok(prices)
}
