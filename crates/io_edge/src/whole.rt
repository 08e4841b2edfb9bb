//! Reading a whole file, and writing all of some bytes.

ghost use Rattle.std.specs.Prelude.{◌≡◌, ◌+◌, ◌-◌, ◌^◌, ◌<◌, ◌≤◌, length, take, drop};
ghost use Rattle.std.specs.Prelude.{IfOk, OnOk, IfErr, OnErr};
ghost use Rattle.std.specs.Io.KnownBytes.{Appends};
ghost use Rattle.io_edge.specs.Causes.{Rose, NoneFell};
ghost use Rattle.io_edge.specs.Known.{ReadsAt};
ghost use Rattle.io_edge.specs.Whole.{IsWhole, IsLonger, AppendsSome};
ghost use Rattle.io_edge.specs.Stop.{IsOtherStop};

use crate::outside::{Failed, Files, Sink};
use std::alloc::{AllocError, Global};
use thiserror::Error;

/// Why a whole file wasn't read.
#[derive(Debug, Drop, Error)]
pub enum ReadStop {
    /// A read failed.
    #[error("a read failed")]
    Fault,
    /// The file has more bytes than the limit.
    #[error("the file is too long")]
    TooLong,
    /// The bytes found no room.
    #[error("out of memory")]
    NoMemory,
}

/// A write failed.
#[derive(Debug, Drop, Error)]
#[error("a write failed")]
pub struct WriteFault;

/// The room for a small file, in bytes.
const SMALL: usize = 65_536;

/// The least room for the rest of a larger file, in bytes.
const LARGE: usize = 1_048_576;

/// Reads all the bytes that `name` holds, if there are at most `limit`.
///
/// The bytes are read straight into the buffer that is answered. Its room is 64 KiB at first, and
/// where that is full it grows by as much as was read, by 1 MiB at least, so that all its growth
/// costs about one pass over the bytes. It is never more than `limit + 1` bytes: the byte more tells
/// that a file is too long.
///
/// Where no read failed, the answer is the whole file if it has at most `limit` bytes and `TooLong`
/// if it has more, or `NoMemory`. An absent file is never answered by `Ok` or `TooLong`.
pub fn read_whole<F: Files>(
    alloc: Global,
    files: &mut F,
    name: &str,
    limit: u32,
) -> Result<Vec<u8>, ReadStop>
    requires { limit ≤ 2 ^ 30 }
    ensures whole { IfOk result (λ bytes. IsWhole ((F.disk files.old).holds name.now) limit bytes.items) }
    ensures fault { result ≡ Err ReadStop.Fault
        → Rose ((F.disk files.old).faults name.now) ((F.disk files.new).faults name.now) }
    ensures long { result ≡ Err ReadStop.TooLong → IsLonger ((F.disk files.old).holds name.now) limit }
    ensures complete { ¬ Rose ((F.disk files.old).faults name.now) ((F.disk files.new).faults name.now)
        → IfErr result (IsOtherStop ((F.disk files.old).holds name.now) limit) }
    ensures unchanged { (F.disk files.new).holds ≡ (F.disk files.old).holds }
    ensures later { NoneFell (F.disk files.old).faults (F.disk files.new).faults }
{
    let most = limit as usize + 1;
    let mut bytes = Vec::new(alloc);
    let mut filled: usize = 0;
    while filled < most {
        if make_room(&mut bytes, filled, most).is_err() {
            return Err(ReadStop::NoMemory);
        }
        match read_behind(files, name, &mut bytes, filled) {
            Ok(0) => {
                bytes.truncate(filled);
                return Ok(bytes);
            }
            Ok(count) => filled += count,
            Err(_) => return Err(ReadStop::Fault),
        }
    }
    Err(ReadStop::TooLong)
}

// Sees to room behind the filled bytes, and to at most `most` bytes in all.
fn make_room(bytes: &mut Vec<u8>, filled: usize, most: usize) -> Result<(), AllocError>
    requires filled { filled ≤ length bytes.old.items }
    requires below { filled < most }
    requires most { most ≤ 2 ^ 30 + 1 }
    requires within { length bytes.old.items ≤ most }
    ensures kept { take filled bytes.new.items ≡ take filled bytes.old.items }
    ensures within { length bytes.new.items ≤ most }
    ensures some { OnOk result (filled < length bytes.new.items) }
{
    if filled < bytes.len() {
        return Ok(());
    }
    let step = if filled == 0 {
        SMALL
    } else {
        filled.max(LARGE)
    };
    let room = most.min(filled + step);
    bytes.reserve_exact(room - filled)?;
    bytes.resize(room, 0)
}

// Reads once into the room behind the filled bytes.
fn read_behind<F: Files>(
    files: &mut F,
    name: &str,
    bytes: &mut Vec<u8>,
    filled: usize,
) -> Result<usize, Failed>
    requires room { filled < length bytes.old.items }
    requires near { filled ≤ 2 ^ 30 }
    ensures kept { take filled bytes.new.items ≡ take filled bytes.old.items }
    ensures room { length bytes.new.items ≡ length bytes.old.items }
    ensures bound { IfOk result (λ n. filled + n ≤ length bytes.old.items) }
    ensures bytes { ReadsAt ((F.disk files.old).holds name.now) filled result (drop filled bytes.new.items) }
    ensures unchanged { (F.disk files.new).holds ≡ (F.disk files.old).holds }
    ensures fault { OnErr result
        (Rose ((F.disk files.old).faults name.now) ((F.disk files.new).faults name.now)) }
    ensures later { NoneFell (F.disk files.old).faults (F.disk files.new).faults }
{
    let buf = bytes.as_mut_slice();
    files.read_at(name, filled as u64, &mut buf[filled..])
}

/// Writes all of the bytes.
///
/// After `WriteFault` the sink has a front part of them, and has failed.
pub fn write_whole<S: Sink>(sink: &mut S, bytes: &[u8]) -> Result<(), WriteFault>
    ensures ok { OnOk result (Appends (S.outflow sink.old).written (S.outflow sink.new).written bytes.now) }
    ensures fault { OnErr result (Rose (S.outflow sink.old).faults (S.outflow sink.new).faults) }
    ensures part { OnErr result
        (AppendsSome (S.outflow sink.old).written (S.outflow sink.new).written bytes.now) }
    ensures later { (S.outflow sink.old).faults ≤ (S.outflow sink.new).faults }
{
    let mut count: usize = 0;
    while count < bytes.len() {
        match sink.write(&bytes[count..]) {
            Ok(more) => count += more,
            Err(_) => return Err(WriteFault),
        }
    }
    Ok(())
}
