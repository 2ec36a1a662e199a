//! The drift rule against places that were worked out by hand, and a list of marks.
ghost use Rattle.positions.specs.Mark.{Mark, IsModerate};
ghost use Rattle.positions.specs.Drift.{IsDrift};

use crate::{Canvas, GlyphMark, Kept, MarkList, Passed, Pos, RuleMark, SpecialMark};
use dv_base::{Conv, FontId, Units};

/// The units of TeX's DVI files at 300 dots an inch, without magnification.
const TEX: Units = Units {
    num: 25_400_000,
    den: 473_628_672,
    mag: 1_000,
    dpi: 300,
};

/// A character of 327,680 units is 20.7555 pixels wide; a space of its font, at ten points.
const WIDTH: i64 = 327_680;

const PIXELS: i64 = 21;

const SPACE: i64 = 109_226;

/// The pixels behind a row of characters.
fn behind_row(conv: &Conv, drift: i64, characters: u32) -> i64
    requires { IsDrift drift }
{
    let mut pos = Pos::origin();
    for _ in 0..characters {
        if pos.advance(conv, drift, WIDTH, PIXELS).is_err() {
            return -1;
        }
    }
    pos.hh
}

#[test]
fn drifts_past_characters(rt: HostRuntime) {
    let conv = Conv::new(&TEX).expect(&rt, "TeX's units");
    // where the fourth, the eighth and the twelfth character of a row stand, by the limit of the drift
    for (before, exact, one, two) in [(3, 62, 63, 63), (7, 145, 146, 147), (11, 228, 229, 230)] {
        assert_eq!(rt;
            behind_row(&conv, 0, before),
            exact,
            "behind {before}, limit 0"
        );
        assert_eq!(rt;
            behind_row(&conv, 1, before),
            one,
            "behind {before}, limit 1"
        );
        assert_eq!(rt;
            behind_row(&conv, 2, before),
            two,
            "behind {before}, limit 2"
        );
    }
}

#[test]
fn moves_across_and_down(rt: HostRuntime) {
    let conv = Conv::new(&TEX).expect(&rt, "TeX's units");
    // behind ten characters: a move, and the pixels after it
    for (q, hh) in [
        (109_226, 214),
        (109_225, 216),
        (-436_904, 180),
        (-436_903, 182),
        (120_000, 215),
    ] {
        let mut pos = Pos {
            h: 3_276_800,
            hh: 210,
            ..Pos::origin()
        };
        assert_eq!(rt; pos.right(&conv, 2, SPACE, q), Ok(()));
        assert_eq!(rt; (pos.h, pos.hh), (3_276_800 + q, hh), "right {q}");
    }
    // two moves that are kerns each may drift where their sum may not
    for (drift, from, hh) in [(2, 210, 217), (0, 208, 215)] {
        let mut pos = Pos {
            h: 3_276_800,
            hh: from,
            ..Pos::origin()
        };
        assert_eq!(rt; pos.right(&conv, drift, SPACE, 60_000), Ok(()));
        assert_eq!(rt; pos.right(&conv, drift, SPACE, 60_000), Ok(()));
        assert_eq!(rt; pos.hh, hh, "limit {drift}");
    }
    for (q, vv) in [
        (546_130, 37),
        (546_129, 39),
        (-546_130, -32),
        (-546_129, -30),
    ] {
        let mut pos = Pos {
            v: 40_000,
            vv: 5,
            ..Pos::origin()
        };
        assert_eq!(rt; pos.down(&conv, 2, SPACE, q), Ok(()));
        assert_eq!(rt; (pos.v, pos.vv), (40_000 + q, vv), "down {q}");
    }
}

#[test]
fn stops_at_the_limit(rt: HostRuntime) {
    let conv = Conv::new(&TEX).expect(&rt, "TeX's units");
    let edge = Pos {
        h: 2_147_483_647,
        v: -2_147_483_647,
        w: 7,
        ..Pos::origin()
    };
    let mut pos = edge;
    assert_eq!(rt; pos.right(&conv, 2, 0, 1), Err(Passed));
    assert_eq!(rt; pos.advance(&conv, 2, 1, 0), Err(Passed));
    assert_eq!(rt; pos.down(&conv, 2, 0, -1), Err(Passed));
    assert_eq!(rt; pos, edge);
    assert_eq!(rt; pos.right(&conv, 2, 0, -1), Ok(()));
    assert_eq!(rt; pos.down(&conv, 2, 0, 1), Ok(()));
    assert_eq!(rt; (pos.h, pos.v, pos.w), (2_147_483_646, -2_147_483_646, 7));
}

/// The rule that the canvases below are given.
const RULE: RuleMark = RuleMark {
    x: 1,
    y: 0,
    w: 3,
    rows: 1,
    h: 100,
    v: 0,
    a: 5_262,
    b: 47_362,
};

/// Gives any canvas the same rule twice.
fn rule_twice<C: Canvas>(canvas: &mut C) -> Result<(), C::Fault>
    requires { (mark : Mark) → IsModerate mark → C.can canvas.old mark }
{
    canvas.rule(&RULE)?;
    canvas.rule(&RULE)
}

#[test]
fn keeps_marks(rt: HostRuntime) {
    let glyph = GlyphMark {
        font: FontId::new(7).expect(&rt, "a font's number"),
        code: 65,
        x: 21,
        y: -3,
        h: 327_680,
        v: -50_000,
        width: 327_680,
        pixels: 21,
    };
    let mut list = MarkList::new(rt.alloc());
    list.glyph(&glyph).expect(&rt, "memory");
    rule_twice(&mut list).expect(&rt, "memory");
    list.special(&SpecialMark {
        bytes: b"landscape",
        x: 1,
        y: 2,
        h: 3,
        v: 4,
    })
    .expect(&rt, "memory");
    let mut seen = 0;
    for (place, kept) in list.as_slice().iter().enumerate() {
        match kept {
            Kept::Glyph(mark) => assert!(rt; place == 0 && *mark == glyph),
            Kept::Rule(mark) => assert!(rt; (place == 1 || place == 2) && *mark == RULE),
            Kept::Special { bytes, x, y, h, v } => {
                assert!(rt; place == 3 && bytes.as_slice() == b"landscape".as_slice());
                assert_eq!(rt; (*x, *y, *h, *v), (1, 2, 3, 4));
            }
        }
        seen = place + 1;
    }
    assert_eq!(rt; seen, 4);
}
