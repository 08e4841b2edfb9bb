//! Room for the commands of a piece of a script.

ghost use Rattle.std.specs.Prelude.{◌≡◌, ◌+◌, ◌≤◌, count_by, vec_len, vec_capacity, IfErr, OnOk};
ghost use Rattle.text_line.specs.Lines.{is_line_feed};
ghost use Rattle.script_text.specs.declared.fault.ScriptFault.TheVariants.{NoMemory};

use crate::command::ScriptCommand;
use crate::fault::ScriptFault;

/// Makes room for one command more for each line that the piece ends.
pub(crate) fn make_room(got: &mut Vec<ScriptCommand>, piece: &[u8]) -> Result<(), ScriptFault>
    ensures room { OnOk result (vec_len got.new + count_by is_line_feed piece.now ≤ vec_capacity got.new) }
    ensures unchanged { got.new.items ≡ got.old.items }
    ensures memory { IfErr result (λ fault. fault ≡ NoMemory) }
{
    let ends = piece.iter().filter(|byte| **byte == b'\n').count();
    match got.reserve(ends) {
        Ok(()) => Ok(()),
        Err(_) => Err(ScriptFault::NoMemory),
    }
}
