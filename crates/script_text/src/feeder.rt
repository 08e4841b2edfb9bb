//! Reading commands from a text that comes in pieces.

ghost use Rattle.std.specs.Prelude.{◌+◌, ◌≤◌, ◌^◌};
ghost use Rattle.arrayvec.specs.ArrayVec.{array_vec_len};

use crate::command::ScriptCommand;
use crate::fault::ScriptFault;
use crate::reading::{MAX_LINE, command_on};
use crate::room::make_room;
use arrayvec::ArrayVec;
use text_line::Line;

/// A reader of a script that comes in pieces. It keeps the line that is still to be completed, and a
/// fault once it met one.
#[derive(Drop)]
pub struct LineFeeder {
    /// The number of the line that is still to be completed, from 1.
    number: u32,
    /// The bytes of that line that came so far.
    line: ArrayVec<u8, MAX_LINE>,
    /// How many bytes came.
    taken: u32,
    fault: Option<ScriptFault>,
    ghost lines_have_bytes: { number + array_vec_len line ≤ taken + 1 },
    ghost within: { taken ≤ 2 ^ 26 },
}

impl LineFeeder {
    ghost use Rattle.std.specs.Prelude.{◌≡◌, ◌≢◌, ◌<◌, ℕ, List, [], ◌++◌, length, Ok, Err, None, Some, IfOk};
    ghost use Rattle.std.specs.Prelude.{IfErr, OnOk};
    ghost use Rattle.script_text.specs.declared.fault.ScriptFault.{ScriptFault};
    ghost use Rattle.script_text.specs.declared.fault.ScriptFault.TheVariants.{NoMemory};
    ghost use Rattle.script_text.specs.Lines.{piece_read};
    ghost use Rattle.script_text.specs.Fed.{HasTaken, HasTakenByte, HasFed, HasEnded};
    ghost use Rattle.script_text.specs.Feeding.{IsMet};

    /// A reader of which nothing was asked.
    pub fn new() -> LineFeeder
        ensures begun { HasTaken result [] }
        ensures nothing { result.taken ≡ 0 }
    {
        LineFeeder {
            number: 1,
            line: ArrayVec::new(),
            taken: 0,
            fault: None,
        }
    }

    /// How many bytes were taken: all that came, up to the one with which the first fault was known.
    pub fn taken(&self) -> u32
        ensures count { result ≡ self.now.taken }
        ensures within { result ≤ 2 ^ 26 }
    {
        self.taken
    }

    /// Takes the next piece of the script, and appends the commands of the lines that it completes.
    ///
    /// A line of more than 128 bytes is refused as soon as its 129th byte is there. After a fault
    /// `got` has the commands of the lines before it, and each later call answers the same fault and
    /// changes nothing.
    pub fn feed(&mut self, piece: &[u8], got: &mut Vec<ScriptCommand>) -> Result<(), ScriptFault>
        requires { self.old.taken + length piece.now ≤ 2 ^ 26 }
        // However the script was cut before, what is known of it now was appended and is answered.
        ensures fed { result ≢ Err NoMemory → (text : List ℕ) → HasTaken self.old text
            → HasFed text (text ++ piece.now) self.new got.old.items got.new.items result }
        ensures counted { OnOk result (self.new.taken ≡ self.old.taken + length piece.now) }
        ensures few { self.new.taken ≤ self.old.taken + length piece.now }
        // A fault that is met now was known with the last byte that was taken, and not before.
        ensures met { self.old.fault ≡ None → IfErr result (λ fault. fault ≢ NoMemory
            → (text : List ℕ) → HasTaken self.old text
            → IsMet text piece.now self.old.taken self.new.taken fault) }
        // A fault that is kept is answered again.
        ensures kept { (fault : ScriptFault) → self.old.fault ≡ Some fault
            → (result ≡ Err fault) × (self.new ≡ self.old) × (got.new.items ≡ got.old.items) }
        // Want of memory changes nothing.
        ensures memory { result ≡ Err NoMemory → (self.new ≡ self.old) × (got.new.items ≡ got.old.items) }
    {
        if let Some(fault) = self.fault {
            return Err(fault);
        }
        make_room(got, piece)?;
        for byte in piece {
            if let Some(command) = self.take(*byte)? {
                if got.push(command).is_err() {
                    unreachable!();
                }
            }
        }
        Ok(())
    }

    // Takes one byte: the command of the line that it ends, if it ends one that is not blank.
    fn take(&mut self, byte: u8) -> Result<Option<ScriptCommand>, ScriptFault>
        requires clean { self.old.fault ≡ None }
        requires within { self.old.taken < 2 ^ 26 }
        ensures byte { (text : List ℕ) → HasTaken self.old text → HasTakenByte text byte self.new result }
        ensures counted { self.new.taken ≡ self.old.taken + 1 }
        ensures clean { OnOk result (self.new.fault ≡ None) }
        ensures ends { IfOk result (λ command. command ≢ None → byte ≡ 10) }
        ensures named { IfErr result (λ fault. fault ≢ NoMemory) }
    {
        self.taken += 1;
        if byte == b'\n' {
            return self.complete();
        }
        if self.line.is_full() {
            let fault = ScriptFault::Long { line: self.number };
            self.fault = Some(fault);
            return Err(fault);
        }
        self.line.push(byte);
        Ok(None)
    }

    // Completes the line: its command, if it is not blank.
    fn complete(&mut self) -> Result<Option<ScriptCommand>, ScriptFault>
        requires clean { self.old.fault ≡ None }
        requires some { self.old.number ≤ self.old.taken }
        ensures judged { result
            ≡ piece_read (record { number = self.old.number; bytes = self.old.line.items }) }
        ensures next { OnOk result ((self.new.number ≡ self.old.number + 1) × (self.new.line.items ≡ [])
            × (self.new.fault ≡ None)) }
        ensures kept { IfErr result (λ fault. self.new.fault ≡ Some fault) }
        ensures counted { self.new.taken ≡ self.old.taken }
    {
        let line = Line {
            number: self.number,
            bytes: self.line.as_slice(),
        };
        match command_on(line) {
            Ok(command) => {
                self.number += 1;
                self.line.clear();
                Ok(command)
            }
            Err(fault) => {
                self.fault = Some(fault);
                Err(fault)
            }
        }
    }

    /// Ends the script, and appends the command of a last line without line feed, if there is one.
    ///
    /// That line is then completed. A fault of it is kept.
    pub fn end(&mut self, got: &mut Vec<ScriptCommand>) -> Result<(), ScriptFault>
        ensures ended { result ≢ Err NoMemory → (text : List ℕ) → HasTaken self.old text
            → HasEnded text self.new got.old.items got.new.items result }
        ensures counted { self.new.taken ≡ self.old.taken }
        // A fault that is kept is answered again.
        ensures kept { (fault : ScriptFault) → self.old.fault ≡ Some fault
            → (result ≡ Err fault) × (self.new ≡ self.old) × (got.new.items ≡ got.old.items) }
        // Want of memory changes nothing.
        ensures memory { result ≡ Err NoMemory → (self.new ≡ self.old) × (got.new.items ≡ got.old.items) }
    {
        if let Some(fault) = self.fault {
            return Err(fault);
        }
        if self.line.is_empty() {
            return Ok(());
        }
        make_room(got, b"\n")?;
        if let Some(command) = self.complete()? {
            if got.push(command).is_err() {
                unreachable!();
            }
        }
        Ok(())
    }
}
