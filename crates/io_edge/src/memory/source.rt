//! Bytes in memory that come in.

ghost use Rattle.std.specs.Prelude.{◌≡◌, ◌<◌, ◌≤◌, Some, length, IfOk, is_err};
ghost use Rattle.std.specs.Result.{result_ok};
ghost use Rattle.std.specs.Io.KnownBytes.{ReadConsumes};
ghost use Rattle.io_edge.specs.Causes.{HasCause};
ghost use Rattle.io_edge.specs.Memory.{amount_taken, after_call, first_pace};

use super::calls::Calls;
use super::parts::copy_front;
use crate::outside::{Failed, Source};
use std::marker::Model;

/// Bytes in memory that come in.
#[derive(Drop)]
pub struct MemSource {
    bytes: Vec<u8>,
    taken: usize,
    calls: Calls,
}

impl Model for MemSource {
    ghost use Rattle.std.specs.Prelude.{◌<◌, ◌≤◌, length, drop};
    ghost use Rattle.io_edge.specs.Memory.{Incoming};
    ghost use Rattle.io_edge.specs.Calls.{pace_of};

    ghost Value = { Incoming };

    ghost view = { λ source. record {
      left = drop source.taken source.bytes.items;
      pace = pace_of source.calls;
    } };

    ghost invariant = { λ source. (0 < source.calls.piece) × (source.taken ≤ length source.bytes.items) };
}

impl MemSource {
    /// These bytes: a call takes at most `piece` of them, and the calls whose numbers, from 1,
    /// stand in `failing` fail.
    pub fn new(bytes: Vec<u8>, piece: usize, failing: Vec<u64>) -> MemSource
        requires { 0 < piece }
        ensures left { result.left ≡ bytes.items }
        ensures pace { result.pace ≡ first_pace piece failing.items }
    {
        MemSource {
            bytes,
            taken: 0,
            calls: Calls::new(piece, failing),
        }
    }
}

impl Source for MemSource {
    ghost inflow = { λ source. record { left = Some source.left; faults = source.pace.faults } };

    fn read(&mut self, buf: &mut [u8]) -> Result<usize, Failed>
        requires { 0 < length buf.old }
        ensures bound { IfOk result (λ n. n ≤ length buf.old) }
        ensures bytes { ReadConsumes (Some self.old.left) (Some self.new.left) result buf.new }
        ensures cause { HasCause self.old.pace.faults self.new.pace.faults result }
        ensures amount { result_ok result ≡ amount_taken self.old (length buf.old) }
        ensures pace { self.new.pace ≡ after_call self.old.pace (is_err result) }
    {
        if self.calls.begin() {
            return Err(self.calls.fail());
        }
        let rest = &self.bytes[self.taken..];
        let count = self.calls.amount(buf.len(), rest.len());
        copy_front(rest, buf, count);
        self.taken += count;
        Ok(count)
    }
}
