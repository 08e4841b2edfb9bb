//! Files in memory.

ghost use Rattle.std.specs.Prelude.{◌≡◌, ◌^◌, ◌<◌, ◌≤◌, length, IfOk, is_err};
ghost use Rattle.std.specs.Result.{result_ok};
ghost use Rattle.io_edge.specs.Causes.{HasCause};
ghost use Rattle.io_edge.specs.Known.{ReadsAt};
ghost use Rattle.io_edge.specs.Memory.{held_under, amount_read, after_call, first_pace};
ghost use Rattle.io_edge.specs.Named.{named_bytes};

use super::calls::Calls;
use super::parts::{bytes_under, copy_front};
use crate::outside::{Failed, Files};
use std::marker::Model;

/// Files in memory by their names. Of two files of one name the first is held.
///
/// One count of failed calls serves for every name.
#[derive(Drop)]
pub struct MemFiles {
    files: Vec<(String, Vec<u8>)>,
    calls: Calls,
}

impl Model for MemFiles {
    ghost use Rattle.std.specs.Prelude.{◌<◌};
    ghost use Rattle.io_edge.specs.Memory.{NamedBytes};
    ghost use Rattle.io_edge.specs.Named.{named_bytes};
    ghost use Rattle.io_edge.specs.Calls.{pace_of};

    ghost Value = { NamedBytes };

    ghost view = { λ store. record { files = named_bytes store.files.items; pace = pace_of store.calls } };

    ghost invariant = { λ store. 0 < store.calls.piece };
}

impl MemFiles {
    /// These files: a call gives at most `piece` bytes, and the calls whose numbers, from 1, stand
    /// in `failing` fail.
    pub fn new(files: Vec<(String, Vec<u8>)>, piece: usize, failing: Vec<u64>) -> MemFiles
        requires { 0 < piece }
        ensures files { result.files ≡ named_bytes files.items }
        ensures pace { result.pace ≡ first_pace piece failing.items }
    {
        MemFiles {
            files,
            calls: Calls::new(piece, failing),
        }
    }
}

impl Files for MemFiles {
    ghost disk = { λ store. record { holds = held_under store.files; faults = λ _. store.pace.faults } };

    fn read_at(&mut self, name: &str, place: u64, buf: &mut [u8]) -> Result<usize, Failed>
        requires some_room { 0 < length buf.old }
        requires near { place ≤ 2 ^ 30 }
        ensures bound { IfOk result (λ n. n ≤ length buf.old) }
        ensures bytes { ReadsAt (held_under self.old.files name.now) place result buf.new }
        ensures unchanged { self.new.files ≡ self.old.files }
        ensures cause { HasCause self.old.pace.faults self.new.pace.faults result }
        ensures amount { result_ok result ≡ amount_read self.old name.now place (length buf.old) }
        ensures pace { self.new.pace ≡ after_call self.old.pace (is_err result) }
    {
        if self.calls.begin() {
            return Err(self.calls.fail());
        }
        match bytes_under(self.files.as_slice(), name) {
            None => Err(self.calls.fail()),
            Some(bytes) => {
                let rest = &bytes[(place as usize).min(bytes.len())..];
                let count = self.calls.amount(buf.len(), rest.len());
                copy_front(rest, buf, count);
                Ok(count)
            }
        }
    }
}
