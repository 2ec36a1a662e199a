//! What follows from the definitions alone.
ghost use Rattle.font_set.specs.Alike.{OneFontOf, WhatCanBeHadIsHad};
ghost use Rattle.font_set.specs.Laws.{OneKey, CoversLater, InOrderOfTree};

/// Equal ids come from equal keys. A caller cites what this ensures; the call does nothing.
pub fn one_key()
    ensures { OneKey }
{}

/// A set that covers frames covers them as it grows. A caller cites what this ensures; the call does nothing.
pub fn covers_later()
    ensures { CoversLater }
{}

/// The keys of a page that was covered became known in the order of its expanded tree. A caller cites what this ensures; the call does
/// nothing.
pub fn order_of_tree()
    ensures { InOrderOfTree }
{}

/// Files tell at most one font of a key. A caller cites what this ensures; the call does nothing.
pub fn one_font()
    ensures { OneFontOf }
{
    pk_raster::one_font();
    vf_packets::one_font();
}

/// Where a set with the fonts of the same files covers a page, and is within the limits, the fonts of the page can be had. A caller
/// cites what this ensures; the call does nothing.
pub fn can_be_had()
    ensures { WhatCanBeHadIsHad }
{
    one_font();
}
