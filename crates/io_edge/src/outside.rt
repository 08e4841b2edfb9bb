//! The traits of the outside.
//!
//! Contracts see one thing of each object: its bytes, where it tells them, together with a count of
//! its faults, which never falls.

ghost use Rattle.std.specs.Prelude.{◌≡◌, ◌^◌, ◌<◌, ◌≤◌, length, IfOk};
ghost use Rattle.std.specs.Io.KnownBytes.{ReadConsumes, WriteAppends};
ghost use Rattle.io_edge.specs.Causes.{HasCause, NoneFell};
ghost use Rattle.io_edge.specs.Known.{Disk, Inflow, Outflow, ReadsAt};

use thiserror::Error;

/// A read or a write failed.
#[derive(Debug, Drop, Error)]
#[error("a read or a write failed")]
pub struct Failed;

/// Files by their names.
pub trait Files {
    ghost disk: { Self → Disk };

    /// Reads some of the bytes of the file `name` from byte `place` on, counted from 0, into the
    /// front of `buf`.
    ///
    /// `Ok(n)` gives n bytes, and `Ok(0)` means that `place` is at or past the end. What `buf` has
    /// behind them is not said. An absent file is a fault.
    fn read_at(&mut self, name: &str, place: u64, buf: &mut [u8]) -> Result<usize, Failed>
        requires some_room { 0 < length buf.old }
        requires near { place ≤ 2 ^ 30 }
        ensures bound { IfOk result (λ n. n ≤ length buf.old) }
        ensures bytes { ReadsAt ((disk self.old).holds name.now) place result buf.new }
        ensures unchanged { (disk self.new).holds ≡ (disk self.old).holds }
        ensures cause { HasCause ((disk self.old).faults name.now) ((disk self.new).faults name.now) result }
        ensures later { NoneFell (disk self.old).faults (disk self.new).faults };
}

/// Bytes that come in, one after another.
pub trait Source {
    ghost inflow: { Self → Inflow };

    /// Takes some of the bytes that are left into the front of `buf`.
    ///
    /// `Ok(n)` takes n bytes, and `Ok(0)` means that nothing is left. A failed read takes nothing.
    fn read(&mut self, buf: &mut [u8]) -> Result<usize, Failed>
        requires { 0 < length buf.old }
        ensures bound { IfOk result (λ n. n ≤ length buf.old) }
        ensures bytes { ReadConsumes (inflow self.old).left (inflow self.new).left result buf.new }
        ensures cause { HasCause (inflow self.old).faults (inflow self.new).faults result };
}

/// Bytes that go out, one after another.
pub trait Sink {
    ghost outflow: { Self → Outflow };

    /// Appends some of the first bytes of `piece`.
    ///
    /// `Ok(n)` appends n bytes, at least one. A failed write appends nothing.
    fn write(&mut self, piece: &[u8]) -> Result<usize, Failed>
        requires { 0 < length piece.now }
        ensures bound { IfOk result (λ n. (0 < n) × (n ≤ length piece.now)) }
        ensures bytes { WriteAppends (outflow self.old).written (outflow self.new).written result piece.now }
        ensures cause { HasCause (outflow self.old).faults (outflow self.new).faults result };
}
