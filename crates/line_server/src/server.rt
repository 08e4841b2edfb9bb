//! Bytes in, bytes out.

ghost use Rattle.std.specs.Prelude.{◌≡◌, ◌≤◌, ◌++◌, IfOk, [], if◌then◌else◌};
ghost use Rattle.line_server.specs.Served.{HasServed, ServesEnd, ServesPiece};
ghost use Rattle.line_server.specs.Writing.{PutsText, WritesText};

use crate::answer::answer_to;
use crate::joined::JoinedSession;
use crate::{Asked, NoMemory};
use edit_replay::Session;
use io_edge::{Sink, WriteFault, write_whole};
use line_feed::LineFeed;
use std::alloc::Global;
use std::sync::ledger::Ledger;
use steps::Steps;
use word_list::Show;

/// Answers to one piece wait to be written together, at most this many bytes of them.
const HELD: usize = 1 << 16;

/// A session that answers the lines of a text as its pieces come, each with one answer.
///
/// It knows which cells walks join, so `none` needs no search where a walk is missing.
#[derive(Drop)]
pub struct LineServer {
    session: JoinedSession,
    show: Show,
    feed: LineFeed,
}

// Writes a text, or a first part of it where a write fails.
fn write_text<O: Sink>(out: &mut O, text: &[u8]) -> Result<(), WriteFault>
    ensures wrote { WritesText text.now (O.outflow out.old) (O.outflow out.new) result }
    ensures later { (O.outflow out.old).faults ≤ (O.outflow out.new).faults }
{
    write_whole(out, text)
}

// Puts a text behind those that wait, if there is room for it.
fn hold(held: &mut Vec<u8>, text: &[u8]) -> bool
    ensures { held.new.items ≡ (if result then held.old.items ++ text.now else held.old.items) }
{
    if held.len() + text.len() > HELD {
        return false;
    }
    held.extend_from_slice(text).is_ok()
}

// Puts a text behind those that wait, or writes them and then the text.
fn put_text<O: Sink>(out: &mut O, held: &mut Vec<u8>, text: &[u8]) -> Result<(), WriteFault>
    ensures put { PutsText text.now (O.outflow out.old) held.old.items
        (O.outflow out.new) held.new.items result }
    ensures later { (O.outflow out.old).faults ≤ (O.outflow out.new).faults }
{
    if hold(held, text) {
        return Ok(());
    }
    write_text(out, held.as_slice())?;
    held.clear();
    write_text(out, text)
}

impl LineServer {
    /// A server to which nothing came, with all memory that it keeps.
    pub fn new(alloc: Global, session: Session, show: Show) -> Result<LineServer, NoMemory>
        ensures session { IfOk result (λ s. s.session ≡ session) }
        ensures show { IfOk result (λ s. s.show ≡ show) }
        ensures begun { IfOk result (λ s. (out : _) → HasServed s s [] out out) }
    {
        let session = JoinedSession::new(alloc, session)?;
        Ok(LineServer {
            session,
            show,
            feed: LineFeed::new(),
        })
    }

    /// Takes a piece of the text, and writes the answers to the lines that it completes, up to 64 KiB of them
    /// at once.
    ///
    /// Where memory is wanting for an answer the line `memory` answers, and nothing changed. After a
    /// `WriteFault` a first part of the answers is written.
    pub fn feed<O: Sink, L: Ledger>(
        &mut self,
        alloc: Global,
        piece: &[u8],
        out: &mut O,
        steps: &mut Steps<L>,
    ) -> Result<(), WriteFault>
        ensures { ServesPiece self.old self.new piece.now (O.outflow out.old) (O.outflow out.new) result }
    {
        let mut held = Vec::new(alloc);
        let mut left = piece;
        'lines: while let Some((line, rest)) = self.feed.take(left) {
            let text = answer_to(alloc, &mut self.session, self.show, Asked::by(&line), steps);
            put_text(out, &mut held, text.bytes())?;
            left = rest;
        }
        write_text(out, held.as_slice())
    }

    /// Ends the text: answers its last line, where that has no line feed and is not empty.
    pub fn end<O: Sink, L: Ledger>(
        &mut self,
        alloc: Global,
        out: &mut O,
        steps: &mut Steps<L>,
    ) -> Result<(), WriteFault>
        ensures { ServesEnd self.old self.new (O.outflow out.old) (O.outflow out.new) result }
    {
        match self.feed.end() {
            Some(line) => {
                let text = answer_to(alloc, &mut self.session, self.show, Asked::by(&line), steps);
                write_text(out, text.bytes())
            }
            None => Ok(()),
        }
    }
}
