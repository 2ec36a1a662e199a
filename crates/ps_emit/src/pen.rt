//! What the lines of a page have left so far.
ghost use Rattle.std.specs.Prelude.{◌≡◌};
ghost use Rattle.ps_subset.specs.Items.{first_pen};

use dv_base::FontId;
use std::marker::Model;

/// What the lines of a page before the next one have left in the machine: the pixel of its place, the font that is set, and the way that it
/// has kept.
#[derive(Drop)]
pub struct Pen {
    pub x: i64,
    pub y: i64,
    pub font: Option<FontId>,
    /// The pixels of the last way that was kept.
    pub delta: i64,
    /// Whether the place is not known: the next move then names its pixel.
    pub lost: bool,
}

impl Model for Pen {
    ghost use Rattle.ps_subset.specs.Items as items;
    ghost use Rattle.ps_emit.specs.Bounds.{IsNearPen};

    ghost Value = { items.Pen };

    ghost view = { λ p. record { x = p.x; y = p.y; font = p.font; delta = p.delta; lost = p.lost } };

    ghost invariant = { λ p. IsNearPen (record { x = p.x; y = p.y; font = p.font; delta = p.delta; lost = p.lost }) };
}

impl Pen {
    /// What stands at the beginning of a page.
    pub fn first() -> Pen
        ensures { result ≡ first_pen }
    {
        Pen {
            x: 0,
            y: 0,
            font: None,
            delta: 0,
            lost: false,
        }
    }
}
