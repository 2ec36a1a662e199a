//! The unit of a DVI file.

/// What turns DVI units into pixels (DVI format, preamble): one unit is `num / den` of 10^-7 metres, magnified by `mag / 1000`,
/// at `dpi` pixels an inch.
#[derive(Clone, Copy, Debug, PartialEq, Eq)]
pub struct Units {
    pub num: i64,
    pub den: i64,
    pub mag: i64,
    pub dpi: i64,
}
