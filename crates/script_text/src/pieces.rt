//! The law of scripts that come in pieces: the contract of a call that does nothing.

ghost use Rattle.std.specs.Prelude.{◌≡◌, ℕ, List};
ghost use Rattle.text_line.specs.Reading.{reading};
ghost use Rattle.script_text.specs.Faults.{script_of};
ghost use Rattle.script_text.specs.Feeding.{commands_of, fault_of};

/// What a `LineFeeder` makes of a text, however it is cut, is what the whole text is read as: its fault, or
/// its commands.
pub fn pieces_are_the_whole()
    ensures { (text : List ℕ) → script_of text ≡ reading (fault_of text) (commands_of text) }
{}
