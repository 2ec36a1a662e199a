//! What the table of commands says of all spellings.
ghost use Rattle.dvi_ops.specs.Laws.{OneSpelling, OneReading, ShortestSpelling, SpelledHasRoom};

/// No spelling begins another, and no bytes spell two commands. So the commands of given bytes, one after another from a place
/// on, are determined. A caller cites what this ensures; the call does nothing.
#[tactic(auto, using(crate::proofs::Texts::one_spelling))]
pub fn one_spelling()
    ensures { OneSpelling }
{}

/// The commands that bytes spell are a function of the bytes. A caller cites what this ensures; the call does nothing.
#[tactic(auto, using(crate::proofs::Reading::one_reading))]
pub fn one_reading()
    ensures { OneReading }
{}

/// A command has a shortest spelling where its operands have room. A caller cites what this ensures; the call does nothing.
#[tactic(auto, using(crate::proofs::Least::shortest_spelling))]
pub fn shortest_spelling()
    ensures { ShortestSpelling }
{}

/// What bytes spell can be put. A caller cites what this ensures; the call does nothing.
#[tactic(auto, using(crate::proofs::Roomy::spelled_has_room))]
pub fn spelled_has_room()
    ensures { SpelledHasRoom }
{}
