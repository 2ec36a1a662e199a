//! The laws of the whole text.
//!
//! Each function does nothing; its clause is the law, for whoever builds on it.
ghost use Rattle.ps_emit.specs.Laws.{CallsMakeText, CutTextShows, CutTextSpares, EachIsTakeable, TextIsGood, TextShows, TextSpares, UsageGivesFonts};

/// What the calls of an `Emitter` write, one after another, is the text of the job.
pub fn calls_make_text()
    ensures { CallsMakeText }
{}

/// What was taken of the marks of a section gives the section's fonts.
pub fn usage_gives_fonts()
    ensures { UsageGivesFonts }
{}

/// Marks of which each can be taken can all be taken.
pub fn each_is_takeable()
    ensures { EachIsTakeable }
{}

/// The text of a job is one that the machine's laws speak of.
pub fn text_is_good()
    ensures { TextIsGood }
{}

/// Run on the machine, the text shows exactly the marks of its pages at their pixels, page after page, and each section loads exactly
/// the glyphs that its pages use.
pub fn text_shows()
    ensures { TextShows }
{}

/// So it is with what stands of the text up to any byte, for the first of these.
pub fn cut_text_shows()
    ensures { CutTextShows }
{}

/// The strings that the text shows are the stretches of its pages, and each glyph that a section uses is put once in it.
pub fn text_spares()
    ensures { TextSpares }
{}

/// So it is with what stands of the text up to any byte, as far as that goes.
pub fn cut_text_spares()
    ensures { CutTextSpares }
{}
