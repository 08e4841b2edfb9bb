//! The law of names: the contract of a call that does nothing.

ghost use Rattle.scen_text.specs.Names.{NamesStand};

/// The name of each entry that a text spells stands in the text: in one line, from the first byte of a field
/// to the last byte of one.
pub fn names_stand()
    ensures { NamesStand }
{}
