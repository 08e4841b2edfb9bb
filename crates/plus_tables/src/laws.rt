//! Laws of tables, as contracts of calls.

ghost use Rattle.plus_tables.specs.Local.{EntriesFollow};

/// Each entry follows from those at the next cell.
#[tactic(auto, using(crate::proofs::Following::entries_follow))]
pub fn entries_follow()
    ensures { EntriesFollow }
{}
