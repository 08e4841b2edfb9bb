//! What answers a line.

ghost use Rattle.std.specs.Prelude.{◌≡◌};
ghost use Rattle.line_server.specs.Writing.{AnswersOne, bytes_of, text_or_memory};

use crate::joined::JoinedSession;
use crate::{Asked, NoMemory};
use grid_answers::{framed_costs, framed_field};
use reply_lines::edit_bytes;
use std::alloc::Global;
use std::sync::ledger::Ledger;
use steps::Steps;
use word_list::Show;

/// The bytes that answer a line.
#[derive(Drop)]
pub(crate) enum Answer {
    /// Bytes of the program's own.
    Said(&'static [u8]),
    /// Bytes that were made.
    Made(Vec<u8>),
}

impl Answer {
    /// The bytes.
    pub(crate) fn bytes(&self) -> &[u8]
        ensures { result.now ≡ bytes_of self.now }
    {
        match self {
            Answer::Said(text) => text,
            Answer::Made(text) => text.as_slice(),
        }
    }
}

// A text, or `memory`, where it could not be made.
fn made(text: Result<Vec<u8>, NoMemory>) -> Answer
    ensures { bytes_of result ≡ text_or_memory text }
{
    match text {
        Ok(text) => Answer::Made(text),
        Err(_) => Answer::Said(b"memory\n"),
    }
}

/// Answers what a line asks.
pub(crate) fn answer_to<L: Ledger>(
    alloc: Global,
    session: &mut JoinedSession,
    show: Show,
    asked: Asked,
    steps: &mut Steps<L>,
) -> Answer
    ensures { AnswersOne session.old session.new show asked (bytes_of result) }
{
    match asked {
        Asked::Nothing => Answer::Said(b""),
        Asked::Refused => Answer::Said(b"refused T1\n"),
        Asked::TooLong => Answer::Said(b"refused T2\n"),
        Asked::Edit { x, y, to } => {
            let reply = session.edit(x, y, to, steps);
            let line = edit_bytes(reply);
            Answer::Said(line)
        }
        Asked::Query { sx, sy, gx, gy } => {
            made(session.query_text(alloc, show, sx, sy, gx, gy, steps))
        }
        Asked::Near { sx, sy, gx, gy } => {
            made(session.near_text(alloc, show, sx, sy, gx, gy, steps))
        }
        Asked::Field { x, y } => made(framed_field(alloc, session.layers(), x, y)),
        Asked::Costs { x, y } => made(framed_costs(alloc, session.layers(), x, y)),
    }
}
