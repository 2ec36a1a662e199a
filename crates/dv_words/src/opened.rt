//! The option that a word begins with.
ghost use Rattle.std.specs.Prelude.{◌≡◌, map, Some, None, MatchOption};
ghost use Rattle.dv_words.specs.Stepping.{cut, fits, opened};
ghost use Rattle.dv_words.specs.Views.{front_view};
ghost use Rattle.dv_words.specs.OpenedView.{opened_view};

use crate::setting::Setting;
use crate::tool::Front;

/// An option and what follows it in its word; without it the parameter is the next word.
#[derive(Clone, Copy)]
pub struct Opened<'a> {
    pub option: Setting,
    pub rest: Option<&'a str>,
}

/// What follows the text in the word.
fn cut<'a>(text: &str, word: &'a str) -> Option<&'a str>
    ensures { MatchOption result (cut text.now word.now ≡ None) (λ rest. cut text.now word.now ≡ Some rest.now) }
{
    word.strip_prefix(text)
}

/// The option of the front, where the word begins with it.
fn fits<'a>(front: &Front, word: &'a str) -> Option<Opened<'a>>
    ensures { MatchOption result (fits (front_view front.now) word.now ≡ None) (λ op. fits (front_view front.now) word.now ≡ Some (opened_view op)) }
{
    match cut(front.text, word) {
        None => None,
        Some(rest) if !front.apart => Some(Opened {
            option: front.option,
            rest: Some(rest),
        }),
        Some("") => Some(Opened {
            option: front.option,
            rest: None,
        }),
        Some(_) => None,
    }
}

/// The option that the word begins with.
pub fn find_option<'a>(fronts: &[Front], word: &'a str) -> Option<Opened<'a>>
    ensures { MatchOption result (opened (map front_view fronts.now) word.now ≡ None) (λ op. opened (map front_view fronts.now) word.now ≡ Some (opened_view op)) }
{
    for front in fronts {
        if let Some(found) = fits(front, word) {
            return Some(found);
        }
    }
    None
}
