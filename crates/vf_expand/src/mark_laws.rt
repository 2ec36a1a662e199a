//! What follows for the marks of a page from the definitions alone.
ghost use Rattle.vf_expand.specs.Exact.{PagesAreExact, PagesOnGrids, UnitsStay};
ghost use Rattle.vf_expand.specs.Rules.{RulesArePainted};

/// Where the drift limit is 0, each mark of a page stands at the pixels that are nearest to its units. In units a page has the same marks
/// on any two grids, so that on a grid without drift they are those on any other one, each brought to the nearest pixels. A caller
/// cites what this ensures; the call does nothing.
pub fn exact_pages()
    ensures exact { PagesAreExact }
    ensures units { UnitsStay }
    ensures grids { PagesOnGrids }
{}

/// The height and the width of each rule among a page's marks are above 0. A caller cites what this ensures; the call does nothing.
pub fn painted_rules()
    ensures { RulesArePainted }
{}
