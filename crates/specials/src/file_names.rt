//! Which names of files may be given.
ghost use Rattle.std.specs.Prelude.{◌≡◌};
ghost use Rattle.std.specs.List.{list_all};
ghost use Rattle.specials.specs.FileNames.{is_file_name, is_visible};

fn are_visible(bytes: &[u8]) -> bool
    ensures { result ≡ list_all is_visible bytes.now }
{
    bytes.iter().all(|byte| byte.is_ascii_graphic())
}

/// Whether words and specials may give the text as the name of a file: 1 to 500 bytes, all of them visible ASCII characters.
pub fn is_file_name(text: &[u8]) -> bool
    ensures { result ≡ is_file_name text.now }
{
    are_visible(text) && 1 <= text.len() && text.len() <= 500
}
