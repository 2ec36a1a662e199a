//! Specials.
ghost use Rattle.std.specs.Prelude.{◌≡◌, ◌≤◌, ◌<◌, ◌^◌, ◌-◌, ℕ, List, length, drop, true, false, None, Some, MatchOption};
ghost use Rattle.std.specs.List.{prefix_len, suffix_len};
ghost use Rattle.specials.specs.FileNames.{is_file_name};
ghost use Rattle.specials.specs.Special.{Meaning, after, header_in, is_space, keyed, literal_in, paper_in, paper_of, special_of, trimmed, without_leading_spaces, without_trailing_spaces};
ghost use Rattle.specials.specs.View.{special_view};

use crate::commas::split_at_comma;
use crate::dimensions::dimension;
use crate::file_names::is_file_name;

/// What a special says.
#[derive(Clone, Copy, Debug, PartialEq, Eq)]
pub enum Special<'a> {
    /// `papersize=W,H`: the paper's width and height in scaled points, both above 0.
    Paper(i64, i64),
    /// `papersize=` and anything else.
    BadPaper,
    /// `header=NAME`: the name of a file to be sent before the pages.
    Header(&'a str),
    /// `ps:TEXT`: a text to be passed on as it stands.
    Literal(&'a [u8]),
    /// Any other special.
    Unknown,
}

/// Reads the bytes of a special. Leading spaces are dropped, and spaces may stand round each size of the paper.
pub fn read_special(bytes: &[u8]) -> Special<'_>
    ensures { special_view result ≡ special_of bytes.now }
{
    let text = without_leading_spaces(bytes);
    if let Some(sizes) = after(b"papersize=", text) {
        return read_paper(sizes);
    }
    if let Some(name) = after(b"header=", text) {
        return read_header(name);
    }
    if let Some(text) = after(b"ps:", text) {
        return read_literal(text);
    }
    Special::Unknown
}

/// What follows the key, where the text begins with it.
fn after<'a>(key: &[u8], text: &'a [u8]) -> Option<&'a [u8]>
    ensures { MatchOption result (after key.now text.now ≡ None) (λ rest. after key.now text.now ≡ Some rest.now) }
{
    text.strip_prefix(key)
}

fn is_space(byte: u8) -> bool
    ensures { result ≡ is_space byte }
{
    byte == b' '
}

fn leading_spaces(text: &[u8]) -> usize
    ensures count { result ≡ prefix_len is_space text.now }
    ensures inside { result ≤ length text.now }
{
    text.iter().take_while(|byte| is_space(**byte)).count()
}

fn trailing_spaces(text: &[u8]) -> usize
    ensures count { result ≡ suffix_len is_space text.now }
    ensures inside { result ≤ length text.now }
{
    text.iter()
        .rev()
        .take_while(|byte| is_space(**byte))
        .count()
}

fn without_leading_spaces(text: &[u8]) -> &[u8]
    ensures { result.now ≡ without_leading_spaces text.now }
{
    &text[leading_spaces(text)..]
}

fn trimmed(text: &[u8]) -> &[u8]
    ensures { result.now ≡ trimmed text.now }
{
    let text = without_leading_spaces(text);
    &text[..text.len() - trailing_spaces(text)]
}

/// The paper of these sizes, where both are above 0.
fn paper<'a>(width: Option<i64>, height: Option<i64>) -> Special<'a>
    ensures { special_view result ≡ paper_of width height }
{
    match (width, height) {
        (Some(width), Some(height)) if width > 0 && height > 0 => Special::Paper(width, height),
        _ => Special::BadPaper,
    }
}

/// The paper of two sizes with a comma between and spaces round each.
fn read_paper<'a>(text: &[u8]) -> Special<'a>
    ensures { special_view result ≡ paper_in text.now }
{
    let (width, height) = split_at_comma(text);
    paper(dimension(trimmed(width)), dimension(trimmed(height)))
}

fn read_header(name: &[u8]) -> Special<'_>
    ensures { special_view result ≡ header_in name.now }
{
    if !is_file_name(name) {
        return Special::Unknown;
    }
    match str::from_utf8(name) {
        Ok(name) => Special::Header(name),
        Err(_) => unreachable!(),
    }
}

/// A text to be passed on. `ps::` and `ps: plotfile` are other specials of dvips.
fn read_literal(text: &[u8]) -> Special<'_>
    ensures { special_view result ≡ literal_in text.now }
{
    if after(b":", text).is_some() || after(b"plotfile", without_leading_spaces(text)).is_some() {
        return Special::Unknown;
    }
    Special::Literal(text)
}
