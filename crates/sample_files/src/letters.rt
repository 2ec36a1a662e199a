//! The characters of the document, drawn one after another.
ghost use Rattle.std.specs.Prelude.{◌≡◌, ◌+◌, ◌<◌, ◌≤◌, ◌^◌, ◌++◌, OnOk};
ghost use Rattle.sample_files.specs.Letters.{after, code_of, codes, next};

use std::alloc::AllocError;

/// The state of the generator behind `state`.
fn next_state(state: u32) -> u32
    ensures value { result ≡ next state }
{
    ((u64::from(state) * 1_103_515_245 + 12_345) % (1 << 31)) as u32
}

/// The code of a character that a state draws.
fn code(state: u32) -> u8
    ensures { result ≡ code_of state }
{
    (65 + state / 65_536 % 16) as u8
}

/// Appends ten characters, and leaves the generator behind them.
pub fn put_ten(bytes: &mut Vec<u8>, state: &mut u32) -> Result<(), AllocError>
    ensures bytes { OnOk result (bytes.new.items ≡ bytes.old.items ++ codes 10 state.old) }
    ensures state { OnOk result (state.new ≡ after 10 state.old) }
{
    for _drawn in 0_u32..10 {
        *state = next_state(*state);
        bytes.push(code(*state))?;
    }
    Ok(())
}
