//! What follows of sections, whatever the pages.
ghost use Rattle.sections.specs.Laws.{SectionsAreWithin};

/// Where each page alone is within the budget, the sections have all pages, and each is within the budget and the limit of pages. A
/// caller cites what this ensures; the call does nothing.
pub fn sections_are_within()
    ensures { SectionsAreWithin }
{}
