//! How long the copy of a page is.
ghost use Rattle.std.specs.Prelude.{◌≡◌, ◌<◌, ◌≤◌, ◌+◌, ◌^◌, length};
ghost use Rattle.dvicopy_out.specs.Counted.{counted};
ghost use Rattle.dvicopy_out.specs.Marked.{page_pen};
ghost use Rattle.dvicopy_out.specs.Tables.{IsTable};

use crate::numbers::Numbers;
use crate::pen::Pen;
use crate::script::Script;
use font_set::Fonts;
use positions::{Canvas, GlyphMark, NoFault, RuleMark, SpecialMark};

/// How many bytes stand round the marks of a page: its bop and its eop.
const AROUND: u64 = 46;

/// Counts the bytes of a page's copy, its bop and its eop among them.
#[derive(Drop)]
pub struct Measure<'a> {
    fonts: &'a Fonts,
    numbers: Numbers,
    pen: Pen,
    script: Script,
    count: u64,
    ghost table: { IsTable fonts.now numbers },
    ghost fits: { count < 2 ^ 64 },
}

impl<'a> Measure<'a> {
    ghost use Rattle.dvicopy_out.specs.Measured.{bytes_of, fonts_of, pen_of};

    /// Nothing stands on the page yet.
    pub fn new(fonts: &'a Fonts) -> Measure<'a>
        ensures fonts { fonts_of result ≡ fonts.now }
        ensures pen { pen_of result ≡ page_pen }
        ensures bytes { bytes_of result ≡ 46 }
    {
        Measure {
            fonts,
            numbers: Numbers::new(fonts),
            pen: Pen::new(),
            script: Script::new(),
            count: AROUND,
        }
    }

    /// The bytes so far; the greatest `u64` stays.
    pub fn bytes(&self) -> u64
        ensures { result ≡ bytes_of self.now }
    {
        self.count
    }

    /// Begins another page.
    pub fn begin_page(&mut self)
        ensures fonts { fonts_of self.new ≡ fonts_of self.old }
        ensures pen { pen_of self.new ≡ page_pen }
        ensures bytes { bytes_of self.new ≡ 46 }
    {
        self.pen = Pen::new();
        self.count = AROUND;
    }
}

impl<'a> Canvas for Measure<'a> {
    ghost use Rattle.dvicopy_out.specs.Measured.{IsTakeable, Took, fonts_of};
    ghost use Rattle.dvicopy_out.specs.MeasuredLaws.{took_nothing, took_more};

    type Fault = NoFault;

    ghost can = { λ measure mark. IsTakeable (fonts_of measure) mark };

    ghost takes = { λ old new marks. Took old new marks };

    ghost refuses = { λ old new marks mark fault. ⊥ };

    fn glyph(&mut self, mark: &GlyphMark) -> Result<(), NoFault> {
        let number = self.numbers.of(mark.font);
        self.pen.glyph(&mut self.script, mark, number);
        self.count = self
            .count
            .saturating_add(self.script.as_slice().len() as u64);
        Ok(())
    }

    fn rule(&mut self, mark: &RuleMark) -> Result<(), NoFault> {
        self.pen.rule(&mut self.script, mark);
        self.count = self
            .count
            .saturating_add(self.script.as_slice().len() as u64);
        Ok(())
    }

    fn special(&mut self, mark: &SpecialMark<'_>) -> Result<(), NoFault> {
        self.pen.special(&mut self.script, mark);
        self.count = self.count.saturating_add(
            self.script.as_slice().len() as u64 + mark.bytes.len() as u64,
        );
        Ok(())
    }

    ghost starts = { λ measure. took_nothing measure };

    ghost chains = { λ a b c xs ys. took_more a b c xs ys };

    ghost refused_later = { λ a b c xs ys mark fault taken refused. refused };
}
