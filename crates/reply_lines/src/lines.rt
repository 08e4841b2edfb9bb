//! The lines that answer a query or an edit.

ghost use Rattle.std.specs.Prelude.{◌≡◌, ◌<◌, ◌++◌, OnOk};
ghost use Rattle.reply_lines.specs.Lines as spec;

use crate::NoMemory;
use cell_lines::{put_points, put_state};
use edit_replay::{EditReply, Reply};
use grid_moves::Cell;
use path_points::unfold;
use root2_cost::Cost;
use std::alloc::Global;
use text_line::{put, put_number};
use word_list::Show;

// Appends what a walk's line says of its cost and these cells.
fn put_walk(out: &mut Vec<u8>, cost: Cost, cells: &[Cell]) -> Result<(), NoMemory>
    ensures { OnOk result (out.new.items ≡ out.old.items ++ spec.walk_text cost cells.now) }
{
    put(out, b"walk ")?;
    put_number(out, u64::from(cost.a))?;
    put(out, b" ")?;
    put_number(out, u64::from(cost.b))?;
    put_points(out, cells)
}

// Appends the states that the search took, where they are shown.
fn put_taken(out: &mut Vec<u8>, width: u16, show: Show, taken: &[u32]) -> Result<(), NoMemory>
    requires { 0 < width }
    ensures { OnOk result (out.new.items ≡ out.old.items ++ spec.taken_text width show taken.now) }
{
    match show {
        Show::Points | Show::Cells | Show::Taken => Ok(()),
        Show::Trace => {
            put(out, b" taken")?;
            for state in taken {
                put_state(out, width, *state)?;
            }
            Ok(())
        }
    }
}

/// Appends the line of the reply to a query, on a map of this width.
pub fn put_reply(
    alloc: Global,
    out: &mut Vec<u8>,
    reply: &Reply,
    width: u16,
    show: Show,
) -> Result<(), NoMemory>
    requires unfolds { spec.Unfolds reply.now }
    requires some { 0 < width }
    ensures { OnOk result (out.new.items ≡ out.old.items ++ spec.reply_line width show reply.now) }
{
    match reply {
        Reply::Outside => put(out, b"outside\n"),
        Reply::Blocked => put(out, b"blocked\n"),
        Reply::None { taken } => {
            put(out, b"none")?;
            put_taken(out, width, show, taken.as_slice())?;
            put(out, b"\n")
        }
        Reply::Walk {
            points,
            cost,
            taken,
        } => {
            match show {
                Show::Points | Show::Trace | Show::Taken => put_walk(
                    out,
                    *cost,
                    points.as_slice(),
                )?,
                Show::Cells => put_walk(out, *cost, unfold(alloc, points)?.as_slice())?,
            }
            put_taken(out, width, show, taken.as_slice())?;
            put(out, b"\n")
        }
    }
}

/// The line of the reply to an edit.
pub fn edit_bytes(reply: EditReply) -> &'static [u8]
    ensures { result.now ≡ spec.edit_line reply }
{
    match reply {
        EditReply::Done => b"ok\n",
        EditReply::Same => b"same\n",
        EditReply::Outside => b"outside\n",
    }
}

/// Appends that line.
pub fn put_edit_reply(out: &mut Vec<u8>, reply: EditReply) -> Result<(), NoMemory>
    ensures { OnOk result (out.new.items ≡ out.old.items ++ spec.edit_line reply) }
{
    put(out, edit_bytes(reply))
}
