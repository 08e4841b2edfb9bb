//! The real objects: files, a reader and a writer of the system.
//!
//! This is the trusted edge. It tells nothing of bytes: contracts see the count of its faults alone,
//! which rises by each call that fails and by no other.

ghost use Rattle.std.specs.Prelude.{◌≡◌, ◌^◌, ◌<◌, ◌≤◌, None, length, IfOk};
ghost use Rattle.std.specs.Io.{WritesAtMost};
ghost use Rattle.std.specs.Io.KnownBytes.{ReadConsumes, WriteAppends};
ghost use Rattle.io_edge.specs.Causes.{Counts, HasCause, NoneFell};
ghost use Rattle.io_edge.specs.Known.{ReadsAt, unknown};

use crate::outside::{Failed, Files, Sink, Source};
use arrayvec::ArrayVec;
use std::fs::OpenFile;
use std::io::{Read, Seek, SeekFrom, Write};
use std::marker::Model;
use std::{fs, io, rt};

// The system opens no file of a longer name.
const LONGEST_NAME: usize = 4096;

/// The files of the system, of which the one that was read last stays open until its end was read. One count
/// of faults serves for every name.
#[derive(Drop)]
pub struct RealFiles<'a, R: rt::Files> {
    rt: &'a R,
    /// The name of the open file.
    name: ArrayVec<u8, LONGEST_NAME>,
    open: Option<R::File>,
    faults: u64,
}

impl<'a, R: rt::Files> Model for RealFiles<'a, R> {
    ghost use Rattle.std.specs.Prelude.{ℕ};

    ghost Value = { ℕ };

    ghost view = { λ files. files.faults };
}

impl<'a, R: rt::Files> RealFiles<'a, R> {
    /// The files that the runtime opens, with no fault yet.
    pub fn new(rt: &'a R) -> RealFiles<'a, R>
        ensures { result ≡ 0 }
    {
        RealFiles {
            rt,
            name: ArrayVec::new(),
            open: None,
            faults: 0,
        }
    }
}

// Opens a regular file. Another one is not opened, as a pipe would wait for whoever writes to it.
fn open_regular<R: rt::Files>(rt: &R, name: &str) -> io::Result<R::File> {
    if fs::metadata(rt, name)?.is_file() {
        let file = fs::open(rt, name)?;
        // Another file may have come under this name since.
        if file.metadata()?.is_file() {
            return Ok(file);
        }
    }
    Err(io::Error::from(io::ErrorKind::Unsupported))
}

// Reads once, from a file that is open, or else from the one that has this name.
fn read_once<R: rt::Files>(
    rt: &R,
    open: Option<R::File>,
    name: &str,
    place: u64,
    buf: &mut [u8],
) -> io::Result<(usize, R::File)>
    ensures { IfOk result (λ read. read.0 ≤ length buf.old) }
{
    let mut file = match open {
        Some(file) => file,
        None => open_regular(rt, name)?,
    };
    file.seek(SeekFrom::Start(place))?;
    let count = file.read(buf)?;
    Ok((count, file))
}

impl<'a, R: rt::Files> RealFiles<'a, R> {
    // The file that is open, where it is the one of this name and more than its first bytes are asked for. So
    // a file is opened for its first byte, and then read on, though another one may have taken its name.
    fn opened(&mut self, name: &str, place: u64) -> Option<R::File>
        ensures { self.new ≡ self.old }
    {
        let open = self.open.take();
        if place > 0 && self.name.as_slice() == name.as_bytes() {
            open
        } else {
            None
        }
    }

    // Keeps a file open.
    fn keep(&mut self, name: &str, file: R::File)
        ensures { self.new ≡ self.old }
    {
        self.name.clear();
        if self.name.try_extend_from_slice(name.as_bytes()).is_ok() {
            self.open = Some(file);
        }
    }
}

impl<'a, R: rt::Files> Files for RealFiles<'a, R> {
    ghost disk = { λ faults. record { holds = λ _. unknown; faults = λ _. faults } };

    fn read_at(&mut self, name: &str, place: u64, buf: &mut [u8]) -> Result<usize, Failed>
        requires some_room { 0 < length buf.old }
        requires near { place ≤ 2 ^ 30 }
        ensures bound { IfOk result (λ n. n ≤ length buf.old) }
        ensures bytes { ReadsAt unknown place result buf.new }
        ensures cause { HasCause self.old self.new result }
        ensures later { NoneFell (λ _. self.old) (λ _. self.new) }
        ensures counted { Counts self.old self.new result }
    {
        let open = self.opened(name, place);
        match read_once(self.rt, open, name, place, buf) {
            Ok((count, file)) => {
                if count > 0 {
                    self.keep(name, file);
                }
                Ok(count)
            }
            Err(_) => {
                self.faults = self.faults.saturating_add(1);
                Err(Failed)
            }
        }
    }
}

/// Any reader of std, as standard input.
#[derive(Drop)]
pub struct RealIn<R> {
    reader: R,
    faults: u64,
}

impl<R> Model for RealIn<R> {
    ghost use Rattle.std.specs.Prelude.{ℕ};

    ghost Value = { ℕ };

    ghost view = { λ source. source.faults };
}

impl<R: Read + Drop> RealIn<R> {
    /// What the reader gives, with no fault yet.
    pub fn new(reader: R) -> RealIn<R>
        ensures { result ≡ 0 }
    {
        RealIn { reader, faults: 0 }
    }
}

impl<R: Read + Drop> Source for RealIn<R> {
    ghost inflow = { λ faults. record { left = None; faults = faults } };

    fn read(&mut self, buf: &mut [u8]) -> Result<usize, Failed>
        requires { 0 < length buf.old }
        ensures bound { IfOk result (λ n. n ≤ length buf.old) }
        ensures bytes { ReadConsumes None None result buf.new }
        ensures cause { HasCause self.old self.new result }
        ensures counted { Counts self.old self.new result }
    {
        match self.reader.read(buf) {
            Ok(count) => Ok(count),
            Err(_) => {
                self.faults = self.faults.saturating_add(1);
                Err(Failed)
            }
        }
    }
}

/// Any writer of std, as standard output, flushed after each write.
#[derive(Drop)]
pub struct RealOut<W> {
    writer: W,
    faults: u64,
}

impl<W> Model for RealOut<W> {
    ghost use Rattle.std.specs.Prelude.{ℕ};

    ghost Value = { ℕ };

    ghost view = { λ sink. sink.faults };
}

impl<W: Write + Drop> RealOut<W> {
    /// What the writer takes, with no fault yet.
    pub fn new(writer: W) -> RealOut<W>
        ensures { result ≡ 0 }
    {
        RealOut { writer, faults: 0 }
    }
}

// Writes once, and flushes what was taken.
fn write_once<W: Write>(writer: &mut W, piece: &[u8]) -> io::Result<usize>
    ensures { WritesAtMost result piece.now }
{
    let count = writer.write(piece)?;
    writer.flush()?;
    Ok(count)
}

impl<W: Write + Drop> Sink for RealOut<W> {
    ghost outflow = { λ faults. record { written = None; faults = faults } };

    // A write that takes nothing is a fault too: it would never come to an end.
    fn write(&mut self, piece: &[u8]) -> Result<usize, Failed>
        requires { 0 < length piece.now }
        ensures bound { IfOk result (λ n. (0 < n) × (n ≤ length piece.now)) }
        ensures bytes { WriteAppends None None result piece.now }
        ensures cause { HasCause self.old self.new result }
        ensures counted { Counts self.old self.new result }
    {
        match write_once(&mut self.writer, piece) {
            Ok(count) if count > 0 => Ok(count),
            _ => {
                self.faults = self.faults.saturating_add(1);
                Err(Failed)
            }
        }
    }
}
