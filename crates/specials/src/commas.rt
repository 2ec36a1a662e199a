//! Pairs with a comma between.
ghost use Rattle.std.specs.Prelude.{◌≡◌, ◌≤◌, length};
ghost use Rattle.std.specs.List.{before_first, after_first, position_or_len};
ghost use Rattle.specials.specs.Commas.{is_comma};

/// The place of the first comma, or the length where there is none.
fn first_comma(text: &[u8]) -> usize
    ensures place { result ≡ position_or_len is_comma text.now }
    ensures inside { result ≤ length text.now }
{
    text.iter().take_while(|byte| **byte != b',').count()
}

/// What stands before the first comma and after it; without a comma, all and nothing.
pub fn split_at_comma(text: &[u8]) -> (&[u8], &[u8])
    ensures before { result.0.now ≡ before_first is_comma text.now }
    ensures after { result.1.now ≡ after_first is_comma text.now }
{
    let (before, rest) = text.split_at(first_comma(text));
    match rest {
        [_, after @ ..] => (before, after),
        [] => (before, rest),
    }
}
