//! TFM files that were written by hand.
use crate::{Tfm, TfmFault};
use std::alloc::{AllocError, Global};

/// Codes 65 and 67 with the fix_words 524288 and -1048576; code 66 has the width index 0.
const SAMPLE: [u8; 70] = [
    0, 17, 0, 2, 0, 65, 0, 67, 0, 3, 0, 1, 0, 1, 0, 1, 0, 0, 0, 0, 0, 0, 0, 0, // the lengths
    0x4b, 0xf1, 0x60, 0x79, 0, 0xa0, 0, 0, // checksum and design size
    1, 0x10, 0, 0, 0, 0, 0, 0, 2, 0, 0, 0, // char_info
    0, 0, 0, 0, 0, 8, 0, 0, 0xff, 0xf0, 0, 0, // widths
    0, 0, 0, 0, 0, 0, 0, 0, 0, 0, 0, 0, // heights, depths, italic corrections
    1, 2, // what follows the file
];

/// The bytes of SAMPLE that are the file.
const LENGTH: usize = 68;

/// A file without characters: lf is 9, lh is 2, bc is 1, ec is 0, nw is 1.
const EMPTY: [u8; 36] = [
    0, 9, 0, 2, 0, 1, 0, 0, 0, 1, 0, 0, 0, 0, 0, 0, 0, 0, 0, 0, 0, 0, 0, 0, 0, 0, 0, 7, 0, 0, 0, 0,
    0, 0, 0, 0,
];

fn fault_of(alloc: Global, bytes: &[u8]) -> Option<TfmFault> {
    Tfm::read(alloc, bytes).err()
}

#[test]
fn reads_widths(rt: HostRuntime) {
    let tfm = Tfm::read(rt.alloc(), &SAMPLE).expect(&rt, "the sample");
    assert_eq!(rt; tfm.checksum(), 0x4bf1_6079);
    for (code, width) in [
        (0, None),
        (64, None),
        (65, Some(524_288)),
        (66, None),
        (67, Some(-1_048_576)),
        (68, None),
        (255, None),
    ] {
        assert_eq!(rt; tfm.width(code), width, "code {code}");
    }
    let empty = Tfm::read(rt.alloc(), &EMPTY).expect(&rt, "a file without characters");
    assert_eq!(rt; empty.checksum(), 7);
    for code in 0..=255 {
        assert_eq!(rt; empty.width(code), None, "code {code}");
    }
}

#[test]
fn refuses_prefixes(rt: HostRuntime) {
    for length in 0..LENGTH {
        assert_eq!(rt;
            fault_of(rt.alloc(), &SAMPLE[..length]),
            Some(TfmFault::Short),
            "the first {length} bytes"
        );
    }
    for length in 0..EMPTY.len() {
        assert_eq!(rt;
            fault_of(rt.alloc(), &EMPTY[..length]),
            Some(TfmFault::Short),
            "the first {length} bytes"
        );
    }
    assert_eq!(rt; fault_of(rt.alloc(), &SAMPLE[..LENGTH]), None);
}

#[test]
fn tells_faults_by_name(rt: HostRuntime) -> Result<(), AllocError> {
    for (fault, name) in [
        (TfmFault::Short, "Short"),
        (TfmFault::BadLengths, "BadLengths"),
        (TfmFault::BadWidth(2), "BadWidth"),
        (TfmFault::BadIndex(65), "BadIndex"),
        (TfmFault::OutOfMemory, "OutOfMemory"),
    ] {
        let text = format!(in rt.alloc(); "{fault}")?;
        assert_eq!(rt; text.as_str(), name);
    }
    Ok(())
}

#[test]
fn names_faults(rt: HostRuntime) {
    // A place, the byte there in place of the right one, and the fault: the lengths first, then the indices, then the widths.
    for (place, byte, fault) in [
        (1, 18, TfmFault::BadLengths),
        (0, 0x80, TfmFault::BadLengths),
        (3, 1, TfmFault::BadLengths),
        (5, 69, TfmFault::BadLengths),
        (6, 1, TfmFault::BadLengths),
        (9, 0, TfmFault::BadLengths),
        (22, 0x80, TfmFault::BadLengths),
        (40, 3, TfmFault::BadIndex(67)),
        (32, 255, TfmFault::BadIndex(65)),
        (44, 1, TfmFault::BadWidth(0)),
        (52, 254, TfmFault::BadWidth(2)),
    ] {
        let mut bytes = SAMPLE;
        if let Some(changed) = bytes.get_mut(place) {
            *changed = byte;
        }
        assert_eq!(rt;
            fault_of(rt.alloc(), &bytes),
            Some(fault),
            "{byte} at {place}"
        );
    }
    let mut bytes = SAMPLE;
    bytes[40] = 3;
    bytes[52] = 1;
    assert_eq!(rt; fault_of(rt.alloc(), &bytes), Some(TfmFault::BadIndex(67)));
    // A header of one word.
    let mut bytes = EMPTY;
    bytes[1] = 8;
    bytes[3] = 1;
    assert_eq!(rt; fault_of(rt.alloc(), &bytes), Some(TfmFault::BadLengths));
    // 256 is the least code where none is there.
    let mut bytes = EMPTY;
    bytes[4] = 1;
    bytes[5] = 0;
    bytes[7] = 255;
    assert_eq!(rt; fault_of(rt.alloc(), &bytes), None);
}
