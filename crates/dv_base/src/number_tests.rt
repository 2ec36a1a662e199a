//! Numbers against values that were worked out by hand.
use crate::{Conv, Cursor, FontId, Units, scale};

/// The units of TeX's DVI files at 300 dots an inch, without magnification.
const TEX: Units = Units {
    num: 25_400_000,
    den: 473_628_672,
    mag: 1_000,
    dpi: 300,
};

#[test]
fn reads_numbers(rt: HostRuntime) {
    let bytes = [
        0xfe, 0xfe, 0x80, 0x01, 0x80, 0x01, 0x80, 0x00, 0x01, 0x80, 0x00, 0x01, 0xff, 0xff, 0xff,
        0xfe, 0xff, 0xff, 0xff, 0xfe, 0x2a,
    ];
    let mut cursor = Cursor::new(&bytes);
    assert_eq!(rt; cursor.u8(), Some(254));
    assert_eq!(rt; cursor.i8(), Some(-2));
    assert_eq!(rt; cursor.u16(), Some(32_769));
    assert_eq!(rt; cursor.i16(), Some(-32_767));
    assert_eq!(rt; cursor.u24(), Some(8_388_609));
    assert_eq!(rt; cursor.i24(), Some(-8_388_607));
    assert_eq!(rt; cursor.u32(), Some(4_294_967_294));
    assert_eq!(rt; cursor.i32(), Some(-2));
    assert_eq!(rt; cursor.place(), 20);
    assert_eq!(rt; cursor.u16(), None);
    assert_eq!(rt; cursor.take(1), Some(&[0x2a][..]));
    assert_eq!(rt; cursor.u8(), None);
}

#[test]
fn judges_nearness(rt: HostRuntime) {
    // 327680 units are 20.7555 pixels
    let conv = Conv::new(&TEX).expect(&rt, "TeX's units");
    let near = [
        (327_680, 20, 20),
        (327_680, 22, 22),
        (327_680, 23, 22),
        (327_680, 30, 22),
        (327_680, 19, 20),
        (327_680, -30, 20),
        (-327_680, -19, -20),
        (-327_680, -22, -22),
        (-327_680, -30, -22),
    ];
    for (x, n, pixels) in near {
        assert_eq!(rt; conv.near(x, n, 1), pixels, "{x} {n}");
    }
    assert_eq!(rt; conv.near(0, -1, 0), 0);
    // 625 pixels are 9867264 units
    for (x, n, excess) in [
        (327_680, 21, 2_412_544),
        (327_680, 20, -7_454_720),
        (-327_680, -21, -2_412_544),
        (0, 1 << 41, 1 << 61),
        (0, -(1 << 41), 1 << 61),
    ] {
        assert_eq!(rt; conv.excess(x, n), excess, "{x} {n}");
    }
    assert_eq!(rt; conv.reach(0), 4_933_631);
    assert_eq!(rt; conv.reach(1), 14_800_895);
}

#[test]
fn converts_to_pixels(rt: HostRuntime) {
    let conv = Conv::new(&TEX).expect(&rt, "TeX's units");
    // x, nearest, least not below: 327680 units are 20.7555 pixels, 47362 are 2.99999 and 5262 are 0.3333
    for (x, round, ceil) in [
        (327_680, 21, 21),
        (47_362, 3, 3),
        (5_262, 0, 1),
        (-327_680, -21, -20),
        (-5_262, 0, 0),
        (0, 0, 0),
    ] {
        assert_eq!(rt; conv.round(x), round, "round {x}");
        assert_eq!(rt; conv.ceil(x), ceil, "ceil {x}");
    }
    // One unit is half a pixel: halves go away from zero.
    let halves = Units {
        num: 254,
        den: 2,
        mag: 1_000,
        dpi: 1_000,
    };
    let conv = Conv::new(&halves).expect(&rt, "half a pixel");
    for (x, round, ceil) in [(1, 1, 1), (-1, -1, 0), (3, 2, 2), (-3, -2, -1), (2, 1, 1)] {
        assert_eq!(rt; conv.round(x), round, "round {x}");
        assert_eq!(rt; conv.ceil(x), ceil, "ceil {x}");
    }
    assert!(rt; Conv::new(&Units { den: 1, ..halves }).is_none());
    for units in [
        Units { num: 0, ..TEX },
        Units { den: 0, ..TEX },
        Units { mag: -1, ..TEX },
        Units { dpi: 0, ..TEX },
    ] {
        assert!(rt; Conv::new(&units).is_none());
    }
}

#[test]
fn scales_fix_words(rt: HostRuntime) {
    for (z, fix, width) in [
        (8_388_609, 1_048_576, 8_388_608),
        (655_360, 524_288, 327_680),
        (655_360, -1_048_576, -655_360),
        (3, -1, -1),
    ] {
        assert_eq!(rt; scale(z, fix), width, "{fix} at {z}");
    }
}

#[test]
fn numbers_fonts(rt: HostRuntime) {
    for number in [0, 1, 999] {
        assert_eq!(rt;
            FontId::new(number).expect(&rt, "a font's number").number(),
            number
        );
    }
    assert!(rt; FontId::new(1_000).is_none());
}

#[test]
fn converts_large_products(rt: HostRuntime) {
    // Products that don't fit 64 bits: 549755813887 of these units are 216439298.62 pixels.
    let large = Units {
        num: 2_147_483_647,
        den: 2_147_483_629,
        mag: 1_000,
        dpi: 100,
    };
    let conv = Conv::new(&large).expect(&rt, "large units");
    for (x, round, ceil) in [
        (549_755_813_887, 216_439_299, 216_439_299),
        (-549_755_813_887, -216_439_299, -216_439_298),
    ] {
        assert_eq!(rt; conv.round(x), round, "round {x}");
        assert_eq!(rt; conv.ceil(x), ceil, "ceil {x}");
    }
}
