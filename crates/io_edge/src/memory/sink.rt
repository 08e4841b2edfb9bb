//! Bytes in memory that go out.

ghost use Rattle.std.specs.Prelude.{◌≡◌, ◌<◌, ◌≤◌, [], Some, length, IfOk, is_err};
ghost use Rattle.std.specs.Result.{result_ok};
ghost use Rattle.std.specs.Io.KnownBytes.{WriteAppends};
ghost use Rattle.io_edge.specs.Causes.{HasCause};
ghost use Rattle.io_edge.specs.Memory.{amount_put, after_call, first_pace};

use super::calls::Calls;
use crate::NoMemory;
use crate::outside::{Failed, Sink};
use std::alloc::Global;
use std::marker::Model;

/// Room in memory for bytes that go out.
#[derive(Drop)]
pub struct MemSink {
    bytes: Vec<u8>,
    room: usize,
    calls: Calls,
}

impl Model for MemSink {
    ghost use Rattle.std.specs.Prelude.{◌<◌, ◌≤◌, length, vec_capacity};
    ghost use Rattle.io_edge.specs.Memory.{Outgoing};
    ghost use Rattle.io_edge.specs.Calls.{pace_of};

    ghost Value = { Outgoing };

    ghost view = { λ sink. record {
      written = sink.bytes.items;
      room = sink.room;
      pace = pace_of sink.calls;
    } };

    ghost invariant = { λ sink. (0 < sink.calls.piece) × (length sink.bytes.items ≤ sink.room)
        × (sink.room ≤ vec_capacity sink.bytes) };
}

impl MemSink {
    /// Room for `room` bytes, taken at once: a call appends at most `piece` bytes, and the calls
    /// whose numbers, from 1, stand in `failing` fail, as do those that find no room left.
    pub fn new(
        alloc: Global,
        room: usize,
        piece: usize,
        failing: Vec<u64>,
    ) -> Result<MemSink, NoMemory>
        requires { 0 < piece }
        ensures written { IfOk result (λ sink. sink.written ≡ []) }
        ensures room { IfOk result (λ sink. sink.room ≡ room) }
        ensures pace { IfOk result (λ sink. sink.pace ≡ first_pace piece failing.items) }
    {
        let bytes = Vec::with_capacity(alloc, room)?;
        Ok(MemSink {
            bytes,
            room,
            calls: Calls::new(piece, failing),
        })
    }

    /// All the bytes that were written.
    pub fn bytes(&self) -> &[u8]
        ensures { result.now ≡ self.now.written }
    {
        self.bytes.as_slice()
    }
}

impl Sink for MemSink {
    ghost outflow = { λ sink. record { written = Some sink.written; faults = sink.pace.faults } };

    fn write(&mut self, piece: &[u8]) -> Result<usize, Failed>
        requires { 0 < length piece.now }
        ensures bound { IfOk result (λ n. (0 < n) × (n ≤ length piece.now)) }
        ensures bytes { WriteAppends (Some self.old.written) (Some self.new.written) result piece.now }
        ensures cause { HasCause self.old.pace.faults self.new.pace.faults result }
        ensures room { self.new.room ≡ self.old.room }
        ensures amount { result_ok result ≡ amount_put self.old (length piece.now) }
        ensures pace { self.new.pace ≡ after_call self.old.pace (is_err result) }
    {
        if self.calls.begin() || self.bytes.len() == self.room {
            return Err(self.calls.fail());
        }
        let count = self.calls.amount(piece.len(), self.room - self.bytes.len());
        match self.bytes.extend_from_slice(&piece[..count]) {
            Ok(()) => Ok(count),
            Err(_) => unreachable!(),
        }
    }
}
