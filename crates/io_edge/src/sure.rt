//! Objects that never fail.

ghost use Rattle.std.specs.Prelude.{◌≡◌, ◌+◌, ◌-◌, ◌^◌, ◌<◌, ◌≤◌, min, length, IfOk, None, Some, Ok};
ghost use Rattle.std.specs.Io.KnownBytes.{WriteAppends};
ghost use Rattle.io_edge.specs.Causes.{HasCause};
ghost use Rattle.io_edge.specs.Memory.{held_surely};
ghost use Rattle.io_edge.specs.Named.{named_bytes};

use crate::memory::{bytes_under, copy_front};
use crate::outside::{Failed, Files, Sink, Source};
use std::marker::Model;

/// Files in memory that never fail. An absent name is an empty file, and of two files of one name
/// the first is held.
#[derive(Drop)]
pub struct SureFiles {
    files: Vec<(String, Vec<u8>)>,
}

impl Model for SureFiles {
    ghost use Rattle.std.specs.Prelude.{ℕ, List};
    ghost use Rattle.io_edge.specs.Named.{named_bytes};

    ghost Value = { List (List ℕ × List ℕ) };

    ghost view = { λ store. named_bytes store.files.items };
}

impl SureFiles {
    /// These files.
    pub fn new(files: Vec<(String, Vec<u8>)>) -> SureFiles
        ensures { result ≡ named_bytes files.items }
    {
        SureFiles { files }
    }
}

impl Files for SureFiles {
    ghost disk = { λ files. record { holds = held_surely files; faults = λ _. 0 } };

    fn read_at(&mut self, name: &str, place: u64, buf: &mut [u8]) -> Result<usize, Failed> {
        let Some(bytes) = bytes_under(self.files.as_slice(), name) else {
            return Ok(0);
        };
        let rest = &bytes[(place as usize).min(bytes.len())..];
        let count = rest.len().min(buf.len());
        copy_front(rest, buf, count);
        Ok(count)
    }
}

/// Bytes in memory that come in without fail.
#[derive(Drop)]
pub struct SureSource {
    bytes: Vec<u8>,
    taken: usize,
}

impl Model for SureSource {
    ghost use Rattle.std.specs.Prelude.{ℕ, List, ◌≤◌, length, drop};

    ghost Value = { List ℕ };

    ghost view = { λ source. drop source.taken source.bytes.items };

    ghost invariant = { λ source. source.taken ≤ length source.bytes.items };
}

impl SureSource {
    /// These bytes.
    pub fn new(bytes: Vec<u8>) -> SureSource
        ensures { result ≡ bytes.items }
    {
        SureSource { bytes, taken: 0 }
    }
}

impl Source for SureSource {
    ghost inflow = { λ left. record { left = Some left; faults = 0 } };

    fn read(&mut self, buf: &mut [u8]) -> Result<usize, Failed> {
        let rest = &self.bytes[self.taken..];
        let count = rest.len().min(buf.len());
        copy_front(rest, buf, count);
        self.taken += count;
        Ok(count)
    }
}

/// A sink that takes all, tells nothing of it and counts the bytes.
#[derive(Drop)]
pub struct SureSink {
    count: u64,
}

impl Model for SureSink {
    ghost use Rattle.std.specs.Prelude.{ℕ};

    ghost Value = { ℕ };

    ghost view = { λ sink. sink.count };
}

impl SureSink {
    /// No byte yet.
    pub fn new() -> SureSink
        ensures { result ≡ 0 }
    {
        SureSink { count: 0 }
    }

    /// How many bytes were written. The count stands still at its last value, 2^64 - 1.
    pub fn count(&self) -> u64
        ensures { result ≡ self.now }
    {
        self.count
    }
}

impl Sink for SureSink {
    ghost outflow = { λ _. record { written = None; faults = 0 } };

    fn write(&mut self, piece: &[u8]) -> Result<usize, Failed>
        requires { 0 < length piece.now }
        ensures bound { IfOk result (λ n. (0 < n) × (n ≤ length piece.now)) }
        ensures bytes { WriteAppends None None result piece.now }
        ensures cause { HasCause 0 0 result }
        ensures all { result ≡ Ok (length piece.now) }
        ensures counted { self.new ≡ min (self.old + length piece.now) (2 ^ 64 - 1) }
    {
        self.count = self.count.saturating_add(piece.len() as u64);
        Ok(piece.len())
    }
}
