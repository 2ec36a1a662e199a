//! The current place of a page.
ghost use Rattle.std.specs.Prelude.{◌≡◌, ◌^◌, ◌<◌, ◌≤◌, pos, ◌+ℤ◌, ◌-ℤ◌, ◌≤ℤ◌, unsigned_abs, Some, None, OnOk, OnErr, IfOk};
ghost use Rattle.positions.specs.Place.{origin};
ghost use Rattle.positions.specs.Drift.{IsDrift, IsSpace, pixels_behind, pixels_after, is_large_across, is_large_down, advanced, right, down};

use dv_base::Conv;
use std::marker::Model;

/// A place would be more than 2^31 - 1 units from the origin.
#[derive(Clone, Copy, Debug, PartialEq, Eq, Drop)]
pub struct Passed;

/// The current place of a page: in units right of and below the DVI origin (h, v), in pixels (hh, vv), and the amounts that the
/// moves w, x, y and z repeat (DVI format, 'The language').
#[derive(Clone, Copy, Debug, PartialEq, Eq, Drop)]
pub struct Pos {
    pub h: i64,
    pub v: i64,
    pub hh: i64,
    pub vv: i64,
    pub w: i64,
    pub x: i64,
    pub y: i64,
    pub z: i64,
}

impl Model for Pos {
    ghost use Rattle.positions.specs.Place.{Place, IsPlace};

    ghost Value = { Place };

    ghost view = { λ p. record { h = p.h; v = p.v; hh = p.hh; vv = p.vv; w = p.w; x = p.x; y = p.y; z = p.z } };

    ghost invariant = { λ p. IsPlace (record { h = p.h; v = p.v; hh = p.hh; vv = p.vv; w = p.w; x = p.x; y = p.y; z = p.z }) };

    ghost inverse = { λ p. record { h = p.h; v = p.v; hh = p.hh; vv = p.vv; w = p.w; x = p.x; y = p.y; z = p.z } };
}

/// `place + by`, where that is at most 2^31 - 1 in size.
fn sum(place: i64, by: i64) -> Result<i64, Passed>
    requires place { unsigned_abs place < 2 ^ 31 }
    requires by { unsigned_abs by < 2 ^ 39 }
    ensures ok { IfOk result (λ there. (there ≡ place +ℤ by) × (unsigned_abs there < 2 ^ 31)) }
    ensures passed { OnErr result (2 ^ 31 ≤ unsigned_abs (place +ℤ by)) }
{
    let there = place + by;
    if there.unsigned_abs() < 1 << 31 {
        Ok(there)
    } else {
        Err(Passed)
    }
}

/// The pixels behind a character or a rule: those before it and its `width`, at most `drift` from the exact ones of `place`.
#[inline(always)]
fn pixels_behind(conv: &Conv, drift: i64, place: i64, pixels: i64, width: i64) -> i64
    requires drift { IsDrift drift }
    requires place { unsigned_abs place < 2 ^ 31 }
    requires pixels { unsigned_abs pixels < 2 ^ 32 }
    requires width { unsigned_abs width < 2 ^ 40 }
    ensures value { result ≡ pixels_behind conv.now drift place pixels width }
    ensures bound { unsigned_abs result < 2 ^ 32 }
{
    conv.near(place, pixels + width, drift)
}

/// The pixels after a move by `q` to `place`: the exact ones where the move is large.
fn pixels_after(conv: &Conv, drift: i64, large: bool, place: i64, pixels: i64, q: i64) -> i64
    requires drift { IsDrift drift }
    requires place { unsigned_abs place < 2 ^ 31 }
    requires pixels { unsigned_abs pixels < 2 ^ 32 }
    requires q { unsigned_abs q < 2 ^ 39 }
    ensures value { result ≡ pixels_after conv.now drift large place pixels q }
    ensures bound { unsigned_abs result < 2 ^ 32 }
{
    if large {
        conv.round(place)
    } else {
        pixels_behind(conv, drift, place, pixels, conv.round(q))
    }
}

/// Whether a move to the right, or by a negative `q` to the left, is more than a kern.
fn is_large_across(space: i64, q: i64) -> bool
    requires { IsSpace space }
    ensures { result ≡ is_large_across space q }
{
    q >= space || q <= -4 * space
}

/// Whether a move down or up is more than the shift of an accent or an index.
fn is_large_down(space: i64, q: i64) -> bool
    requires space { IsSpace space }
    requires q { unsigned_abs q < 2 ^ 39 }
    ensures { result ≡ is_large_down space q }
{
    q.abs() >= 5 * space
}

impl Pos {
    /// The place at which a page begins: zeros all.
    pub fn origin() -> Pos
        ensures { result ≡ origin }
    {
        Pos {
            h: 0,
            v: 0,
            hh: 0,
            vv: 0,
            w: 0,
            x: 0,
            y: 0,
            z: 0,
        }
    }

    /// Moves past a character or a rule that is `width` units and `pixels` pixels wide; hh stays within `drift` of the exact pixel.
    #[inline(always)]
    pub fn advance(
        &mut self,
        conv: &Conv,
        drift: i64,
        width: i64,
        pixels: i64,
    ) -> Result<(), Passed>
        requires drift { IsDrift drift }
        requires width { unsigned_abs width < 2 ^ 39 }
        requires pixels { unsigned_abs pixels < 2 ^ 39 }
        ensures ok { OnOk result (advanced conv.now drift self.old width pixels ≡ Some self.new) }
        ensures passed { OnErr result (advanced conv.now drift self.old width pixels ≡ None) }
        ensures stays { OnErr result (self.new ≡ self.old) }
    {
        let h = sum(self.h, width)?;
        self.hh = pixels_behind(conv, drift, h, self.hh, pixels);
        self.h = h;
        Ok(())
    }

    /// Moves right by `q` units, where a space of the current font has `space`. From a space to the right or four spaces to the
    /// left on, hh becomes the exact pixel; otherwise it moves by the pixels of `q` and stays within `drift` of the exact one.
    pub fn right(&mut self, conv: &Conv, drift: i64, space: i64, q: i64) -> Result<(), Passed>
        requires drift { IsDrift drift }
        requires space { IsSpace space }
        requires q { unsigned_abs q < 2 ^ 39 }
        ensures ok { OnOk result (right conv.now drift space self.old q ≡ Some self.new) }
        ensures passed { OnErr result (right conv.now drift space self.old q ≡ None) }
        ensures stays { OnErr result (self.new ≡ self.old) }
    {
        let h = sum(self.h, q)?;
        self.hh = pixels_after(conv, drift, is_large_across(space, q), h, self.hh, q);
        self.h = h;
        Ok(())
    }

    /// Moves down by `q` units, where a space of the current font has `space`. From five spaces on, vv becomes the exact pixel;
    /// otherwise it moves by the pixels of `q` and stays within `drift` of the exact one.
    pub fn down(&mut self, conv: &Conv, drift: i64, space: i64, q: i64) -> Result<(), Passed>
        requires drift { IsDrift drift }
        requires space { IsSpace space }
        requires q { unsigned_abs q < 2 ^ 39 }
        ensures ok { OnOk result (down conv.now drift space self.old q ≡ Some self.new) }
        ensures passed { OnErr result (down conv.now drift space self.old q ≡ None) }
        ensures stays { OnErr result (self.new ≡ self.old) }
    {
        let v = sum(self.v, q)?;
        self.vv = pixels_after(conv, drift, is_large_down(space, q), v, self.vv, q);
        self.v = v;
        Ok(())
    }
}
