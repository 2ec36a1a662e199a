//! Options and names among the words.
ghost use Rattle.std.specs.Prelude.{◌≡◌, ◌<◌, ◌+◌, ◌++◌, length, true, false, MatchOption, codes};
ghost use Rattle.dv_base.specs.FileName.{text_of};
ghost use Rattle.specials.specs.FileNames.{is_file_name};
ghost use Rattle.dv_words.specs.Grammar.{is_option};
ghost use Rattle.dv_words.specs.Names.{is_dvi, printed_name, with_dvi};

use arrayvec::ArrayString;
use dv_base::FileName;
use specials::is_file_name;

/// An option begins with a minus sign and is longer than that.
pub fn is_option(word: &str) -> bool
    ensures { result ≡ is_option word.now }
{
    let bytes = word.as_bytes();
    bytes.len() > 1 && bytes[0] == b'-'
}

/// The word as the name of a file, where it is one.
pub fn file_name(word: &str) -> Option<FileName>
    ensures { MatchOption result (is_file_name word.now ≡ false) (λ name. (is_file_name word.now ≡ true) × (text_of name ≡ word.now)) }
{
    if is_file_name(word.as_bytes()) {
        FileName::new(word)
    } else {
        None
    }
}

/// Whether the name ends with `.dvi`.
#[tactic(auto, using(std::proofs::lemmas::Str::Pattern::ends_text))]
fn is_dvi(name: &str) -> bool
    ensures { result ≡ is_dvi name.now }
{
    name.ends_with(".dvi")
}

/// The word as the name of a DVI file, with `.dvi` appended where it has it not; `-` stands for a stream.
pub fn dvi_name(word: &str) -> Option<FileName>
    ensures { MatchOption result (is_file_name word.now ≡ false) (λ name. (is_file_name word.now ≡ true) × (text_of name ≡ with_dvi word.now)) }
{
    if !is_file_name(word.as_bytes()) {
        return None;
    }
    if word == "-" || is_dvi(word) {
        FileName::new(word)
    } else {
        joined(word, ".dvi")
    }
}

/// The name of the text that is printed of this input: `.ps` in place of `.dvi`; a stream goes to a stream.
pub fn printed_name(input: &FileName) -> FileName
    ensures { text_of result ≡ printed_name (text_of input.now) }
{
    match input.as_str().strip_suffix(".dvi") {
        Some(stem) => match joined(stem, ".ps") {
            Some(name) => name,
            None => unreachable!(),
        },
        None => *input,
    }
}

/// The two texts as one name; `None` where it would be too long.
fn joined(stem: &str, ending: &str) -> Option<FileName>
    ensures { MatchOption result (540 < length stem.now + length ending.now) (λ name. text_of name ≡ stem.now ++ ending.now) }
{
    let mut text = ArrayString::<540>::from(stem).ok()?;
    text.try_push_str(ending).ok()?;
    FileName::new(text.as_str())
}

/// The name of standard input and standard output.
pub fn stream() -> FileName
    ensures { text_of result ≡ codes "-" }
{
    match FileName::new("-") {
        Some(name) => name,
        None => unreachable!(),
    }
}
