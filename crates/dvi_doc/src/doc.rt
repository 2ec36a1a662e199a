//! A document that was read.
ghost use Rattle.std.specs.Prelude.{◌≡◌, ◌≤◌, ◌<◌, ◌^◌, ℕ, List, length, map, slice_range, slice_get, IfOk, IfErr, Some, IfSome, MatchOption};
ghost use Rattle.std.specs.List.{All, Contains};
ghost use Rattle.dvi_ops.specs.View.{def_view, head_view, tail_view};
ghost use Rattle.dvi_doc.specs.Document.{Document, PageOf};
ghost use Rattle.dvi_ops.specs.Placed.{Lexes};
ghost use Rattle.dvi_doc.specs.Grammar.{IsDoc, NoDoc, AllInner, Defines, IsNamed, IsSized};
ghost use Rattle.dvi_doc.specs.Standing.{Stands};
ghost use Rattle.dvi_doc.specs.View.{IsRead, Outline, outline, page_view, says};
ghost use Rattle.dvi_doc.specs.Faults.{FaultIn, NoneBut};

use crate::fault::DocFault;
use crate::font_def::FontDef;
use crate::fonts::Fonts;
use crate::page::Page;
use crate::parts::read_parts;
use crate::tail::check_tail;
use dvi_ops::{Def, Head, Tail, one_spelling};
use std::alloc::Global;
use std::marker::Model;

/// A document over its bytes: its preamble and postamble, its pages by place, and its fonts.
#[derive(Drop)]
pub struct Doc<'a> {
    bytes: &'a [u8],
    head: Head<'a>,
    pages: Vec<Page>,
    tail: Tail,
    fonts: Fonts<'a>,
}

impl<'a> Model for Doc<'a> {
    ghost use Rattle.dvi_doc.specs.Document.{Document};
    ghost use Rattle.dvi_doc.specs.Grammar.{IsDoc};
    ghost use Rattle.dvi_doc.specs.View.{ReadDoc, Shows, page_view};
    ghost use Rattle.dvi_ops.specs.View.{head_view, tail_view};
    ghost use Rattle.dvi_doc.specs.Standing.{fonts_in};
    ghost use Rattle.std.specs.Prelude.{◌≡◌, ◌<◌, length, map};

    ghost Value = { ReadDoc };

    ghost view = { λ d. record { bytes = d.bytes.now; head = head_view d.head; pages = map page_view d.pages.items; tail = tail_view d.tail; fonts = fonts_in d.fonts } };

    ghost invariant = { λ d. (doc : Document) × IsDoc d.bytes.now doc × Shows doc (record { bytes = d.bytes.now; head = head_view d.head; pages = map page_view d.pages.items; tail = tail_view d.tail; fonts = fonts_in d.fonts }) × (length d.head.comment.now < 256) × (d.fonts.bytes ≡ d.bytes.now) };
}

impl<'a> Doc<'a> {
    /// Reads a document of at most 67,108,864 bytes.
    ///
    /// It looks at the trailer first, then reads the commands from the start, and at last compares what the parts say of one
    /// another. The first fault that is met so is answered; each is true of the bytes, and one other than `OutOfMemory` comes only
    /// where the bytes are no document.
    pub fn read(alloc: Global, bytes: &'a [u8]) -> Result<Doc<'a>, DocFault>
        requires { length bytes.now ≤ 2 ^ 26 }
        ensures found { IfOk result (λ d. (d.bytes ≡ bytes.now) × IsRead d) }
        ensures fault { IfErr result (FaultIn bytes.now) }
        ensures none { IfErr result (NoneBut (NoDoc bytes.now)) }
    {
        one_spelling();
        let parts = read_parts(alloc, bytes)?;
        let fonts = Fonts::new(parts.fonts)?;
        fonts.check(&parts.body.earlier)?;
        check_tail(&parts.head, &parts.body.tail, parts.body.pages.len())?;
        Ok(Doc {
            bytes,
            head: parts.head,
            pages: parts.body.pages,
            tail: parts.body.tail,
            fonts,
        })
    }

    /// What the preamble says.
    pub fn head(&self) -> Head<'a>
        ensures value { head_view result ≡ self.now.head }
        ensures short { length result.comment.now < 256 }
    {
        self.head
    }

    /// What the postamble says.
    pub fn tail(&self) -> Tail
        ensures { tail_view result ≡ self.now.tail }
    {
        self.tail
    }

    /// The pages in file order.
    pub fn pages(&self) -> &[Page]
        ensures { map page_view result.now ≡ self.now.pages }
    {
        &self.pages
    }

    /// The bytes between a page's bop and its eop: spellings of its commands, one after another, and none of them bop, eop, pre,
    /// post or post_post.
    pub fn body(&self, page: usize) -> &'a [u8]
        requires { page < length self.now.pages }
        ensures bytes { (p : Outline) × (slice_get self.now.pages page ≡ Some p) × (p.first ≤ p.eop) × (p.eop ≤ length self.now.bytes) × (result.now ≡ slice_range self.now.bytes p.first p.eop) }
        ensures commands { (doc : Document) → IsDoc self.now.bytes doc → (p : PageOf) × (slice_get doc.pages page ≡ Some p) × Lexes p.first result.now p.commands × AllInner p.commands }
    {
        one_spelling();
        let found = &self.pages[page];
        &self.bytes[found.first as usize..found.eop as usize]
    }

    /// The definition of the font that the postamble defines by this number; `None` exactly where it defines none.
    pub fn font(&self, k: i64) -> Option<&FontDef>
        ensures found { MatchOption result (Defines self.now.fonts k → ⊥) (λ font. Contains self.now.fonts (says self.now font.now) × ((says self.now font.now).k ≡ k)) }
        ensures stands { IfSome result (λ font. Stands self.now.bytes font.now) }
        ensures named { IfSome result (λ font. IsNamed (says self.now font.now)) }
        ensures sized { IfSome result (λ font. IsSized (says self.now font.now)) }
    {
        self.fonts.get(k)
    }

    /// The definitions of the fonts, in the postamble's order.
    pub fn fonts(&self) -> &[FontDef]
        ensures fonts { map (says self.now) result.now ≡ self.now.fonts }
        ensures stands { All (Stands self.now.bytes) result.now }
        ensures named { All IsNamed self.now.fonts }
        ensures sized { All IsSized self.now.fonts }
    {
        self.fonts.all()
    }

    /// What a font definition of the document says.
    pub fn definition(&self, font: &FontDef) -> Def<'a>
        requires { Stands self.now.bytes font.now }
        ensures { def_view result ≡ says self.now font.now }
    {
        font.read(self.bytes)
    }
}
