//! The files against sums that another program made of them.
use crate::{bitmaps, document, widths};
use std::alloc::{AllocError, Global};

/// A sum of a file's bytes in which each has another weight.
fn weighed(bytes: &[u8]) -> u32 {
    let mut sum = 0_u32;
    for byte in bytes {
        sum = sum.wrapping_mul(31).wrapping_add(u32::from(*byte));
    }
    sum
}

#[test]
fn makes_files(rt: HostRuntime) -> Result<(), AllocError> {
    let alloc = rt.alloc();
    let widths = widths(alloc)?;
    assert_eq!(rt; (widths.len(), weighed(&widths)), (176, 3_550_420_931));
    let bitmaps = bitmaps(alloc)?;
    assert_eq!(rt; (bitmaps.len(), weighed(&bitmaps)), (572, 1_821_245_459));
    for (pages, length, sum) in [
        (0, 73, 2_234_140_480),
        (1, 3_778, 762_303_692),
        (2, 7_464, 1_664_184_651),
        (1_000, 3_686_092, 2_207_598_959),
    ] {
        let document = document(alloc, pages)?;
        assert_eq!(rt;
            (document.len(), weighed(&document)),
            (length, sum),
            "{pages} pages"
        );
    }
    Ok(())
}
