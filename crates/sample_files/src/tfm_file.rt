//! The metrics of the font.
ghost use Rattle.std.specs.Prelude.{◌≡◌, ◌+◌, ◌*◌, ◌<◌, ◌≤◌, ◌^◌, ◌++◌, OnOk, IfOk};
ghost use Rattle.sample_files.specs.Widths.{infos, tfm, widths};

use std::alloc::{AllocError, Global};

/// The lengths, check sum and design size with which the file begins.
const HEAD: [u8; 32] = [
    0, 44, 0, 2, 0, 65, 0, 80, 0, 17, 0, 1, 0, 1, 0, 1, 0, 0, 0, 0, 0, 0, 0, 0, // the lengths, in words
    0, 0, 0, 0, 0, 160, 0, 0, // check sum and design size
];

/// Appends the words of the sixteen characters: each has a width of its own.
fn put_infos(bytes: &mut Vec<u8>) -> Result<(), AllocError>
    ensures { OnOk result (bytes.new.items ≡ bytes.old.items ++ infos 16) }
{
    for index in 0..16 {
        bytes.extend_from_slice(&[index + 1, 0, 0, 0])?;
    }
    Ok(())
}

/// Appends the sixteen widths.
fn put_widths(bytes: &mut Vec<u8>) -> Result<(), AllocError>
    ensures { OnOk result (bytes.new.items ≡ bytes.old.items ++ widths 16) }
{
    for index in 0_u32..16 {
        bytes.extend_from_slice(&(524_288 + 16_384 * index).to_be_bytes())?;
    }
    Ok(())
}

/// The bytes of `smp.tfm`.
pub fn widths(alloc: Global) -> Result<Vec<u8>, AllocError>
    ensures { IfOk result (λ bytes. bytes.items ≡ tfm) }
{
    let mut bytes = Vec::with_capacity(alloc, 176)?;
    bytes.extend_from_slice(&HEAD)?;
    put_infos(&mut bytes)?;
    bytes.extend_from_slice(&[0; 4])?;
    put_widths(&mut bytes)?;
    bytes.extend_from_slice(&[0; 12])?;
    Ok(bytes)
}
