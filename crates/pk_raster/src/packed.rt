//! Packed numbers.
ghost use Rattle.std.specs.Prelude.{◌≡◌, ℕ, ◌+◌, ◌-◌, ◌*◌, ◌^◌, ◌<◌, ◌≤◌, length, slice_index, drop, IfSome};
ghost use Rattle.pk_raster.specs.Numbers.{nybbles, packed, long, long_from, pair, Reads};

/// The number that is answered for itself and for all greater ones: more than a bitmap that is kept has pixels.
pub const MANY: u64 = 1_099_511_627_776;

/// The nybble at a place.
pub fn nybble(raster: &[u8], at: usize) -> u8
    requires { at < 2 * length raster.now }
    ensures small { result < 16 }
    ensures value { result ≡ slice_index (nybbles raster.now) at }
{
    let byte = raster[at / 2];
    if at % 2 == 0 { byte / 16 } else { byte % 16 }
}

/// A long number whose first nybble that isn't 0 is `first`, and of which `zeros` more stand at `at`.
fn long_number_from(
    raster: &[u8],
    dyn_f: u8,
    zeros: usize,
    first: u8,
    at: usize,
) -> Option<(u64, usize)>
    requires few { length raster.now < 2 ^ 60 }
    requires inside { at ≤ 2 * length raster.now }
    requires flag { dyn_f ≤ 13 }
    requires digit { first < 16 }
    requires some { 0 < first }
    requires zeros { 0 < zeros }
    ensures positive { IfSome result (λ r. 0 < r.0) }
    ensures further { IfSome result (λ r. at ≤ r.1) }
    ensures value { Reads (nybbles raster.now) (long_from dyn_f zeros first (drop at (nybbles raster.now))) result }
{
    if 2 * raster.len() - at < zeros {
        return None;
    }
    let end = at + zeros;
    let mut value = first as u64;
    for place in at..end {
        value = (16 * value + nybble(raster, place) as u64).min(2 * MANY);
    }
    let shift = (13 - dyn_f as u64) * 16 + dyn_f as u64;
    Some(((value + shift).saturating_sub(15).min(MANY), end))
}

/// A long number, of which one nybble 0 stands before `at`.
fn long_number(raster: &[u8], dyn_f: u8, at: usize) -> Option<(u64, usize)>
    requires few { length raster.now < 2 ^ 60 }
    requires inside { at ≤ 2 * length raster.now }
    requires flag { dyn_f ≤ 13 }
    ensures positive { IfSome result (λ r. 0 < r.0) }
    ensures further { IfSome result (λ r. at ≤ r.1) }
    ensures value { Reads (nybbles raster.now) (long dyn_f 1 (drop at (nybbles raster.now))) result }
{
    let mut zeros = 1;
    for place in at..2 * raster.len() {
        let first = nybble(raster, place);
        if first != 0 {
            return long_number_from(raster, dyn_f, zeros, first, place + 1);
        }
        zeros += 1;
    }
    None
}

/// The packed number that begins with the nybble `first`, which stands before `at`.
pub fn number(raster: &[u8], dyn_f: u8, first: u8, at: usize) -> Option<(u64, usize)>
    requires few { length raster.now < 2 ^ 60 }
    requires inside { at ≤ 2 * length raster.now }
    requires flag { dyn_f ≤ 13 }
    requires first { first ≤ 13 }
    ensures positive { IfSome result (λ r. 0 < r.0) }
    ensures further { IfSome result (λ r. at ≤ r.1) }
    ensures value { Reads (nybbles raster.now) (packed dyn_f first (drop at (nybbles raster.now))) result }
{
    if first == 0 {
        return long_number(raster, dyn_f, at);
    }
    if first <= dyn_f {
        return Some((first as u64, at));
    }
    if at == 2 * raster.len() {
        return None;
    }
    let low = nybble(raster, at);
    Some((
        (first - dyn_f - 1) as u64 * 16 + low as u64 + dyn_f as u64 + 1,
        at + 1,
    ))
}
