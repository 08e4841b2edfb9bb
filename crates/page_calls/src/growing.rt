//! Bytes that go out into memory, as many as there are.

ghost use Rattle.std.specs.Prelude.{◌≡◌, ◌<◌, ◌≤◌, [], Some, length, IfOk};
ghost use Rattle.std.specs.Io.KnownBytes.{WriteAppends};
ghost use Rattle.io_edge.specs.Causes.{HasCause};

use io_edge::{Failed, NoMemory, Sink};
use std::alloc::Global;
use std::marker::Model;

/// All bytes that were written. A write fails where they find no memory.
#[derive(Drop)]
pub struct Growing {
    bytes: Vec<u8>,
    faults: u64,
}

impl Model for Growing {
    ghost use Rattle.std.specs.Prelude.{Some};
    ghost use Rattle.io_edge.specs.Known.{Outflow};

    ghost Value = { Outflow };

    ghost view = { λ sink. record { written = Some sink.bytes.items; faults = sink.faults } };
}

impl Growing {
    /// No byte yet.
    pub fn new(alloc: Global) -> Growing
        ensures written { result.written ≡ Some [] }
        ensures faults { result.faults ≡ 0 }
    {
        Growing {
            bytes: Vec::new(alloc),
            faults: 0,
        }
    }

    /// The bytes, where no write failed.
    pub fn into_bytes(self) -> Result<Vec<u8>, NoMemory>
        ensures bytes { IfOk result (λ bytes. self.written ≡ Some bytes.items) }
        ensures sure { IfOk result (λ bytes. self.faults ≡ 0) }
    {
        if self.faults > 0 {
            return Err(NoMemory);
        }
        Ok(self.bytes)
    }
}

impl Sink for Growing {
    ghost outflow = { λ sink. sink };

    fn write(&mut self, piece: &[u8]) -> Result<usize, Failed>
        requires { 0 < length piece.now }
        ensures bound { IfOk result (λ n. (0 < n) × (n ≤ length piece.now)) }
        ensures bytes { WriteAppends self.old.written self.new.written result piece.now }
        ensures cause { HasCause self.old.faults self.new.faults result }
    {
        match self.bytes.extend_from_slice(piece) {
            Ok(()) => Ok(piece.len()),
            Err(_) => {
                self.faults = self.faults.saturating_add(1);
                Err(Failed)
            }
        }
    }
}
