//! How long the files are.
ghost use Rattle.std.specs.Prelude.{◌≡◌, ◌+◌, ◌*◌, ◌≤◌, ℕ, length};
ghost use Rattle.sample_files.specs.Bitmaps.{pk};
ghost use Rattle.sample_files.specs.Document.{before_page, document, place};
ghost use Rattle.sample_files.specs.Widths.{tfm};

/// The lengths of the files, and that pages begin where the document says.
pub fn lengths()
    ensures places { (n : ℕ) → length (before_page n) ≡ place n }
    ensures document { (n : ℕ) → length (document n) ≡ place n + 58 }
    ensures widths { length tfm ≡ 176 }
    ensures bitmaps { length pk ≡ 572 }
{}
