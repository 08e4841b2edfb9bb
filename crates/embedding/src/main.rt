//! A session in a program of one's own: a map in memory, an edit, a query, and the walk printed.
//!
//! docs/EMBEDDING.md says what each call asks and gives.
#![tactic(auto)]

ghost use Rattle.std.specs.Prelude.{◌≡◌, ◌<◌, ◌∷◌, [], IfOk};
ghost use Rattle.grid_moves.specs.Reply.{IsRight};
ghost use Rattle.edit_replay.specs.Edited.{edit_at, edited};
ghost use Rattle.edit_replay.specs.Replies.{answer_of};

use anyhow::Result;
use edit_replay::{Engine, Layout, NoMemory, Reply, Session};
use grid_moves::{Corner, Ground};
use map_text::read_map;
use std::alloc::Global;
use std::io;
use std::marker::Brand;
use std::sync::ledger::{Blank, Ledger};
use steps::Steps;

/// A wall between two rooms, and a cell that is closed in. The way round the wall is the last row.
const MAP: &[u8] = b"type octile\nheight 3\nwidth 5\nmap\n.@.@.\n.@.@@\n...@.\n";

// A session's reply to a query from (0,0) to (2,0), once the cell (1,1) was made land.
fn reply_with_door<L: Ledger>(
    alloc: Global,
    session: &mut Session,
    blank: Blank,
) -> Result<Reply, NoMemory>
    requires name { blank.name ≡ L.name }
    requires parts { blank.parts ≡ L.parts }
    requires some { 0 < L.parts }
    // It is right on the map as the edit leaves it: a walk is a least one there.
    ensures right { IfOk result (λ reply. IsRight
        (edited session.old.layers (edit_at 1 1 Ground.Land ∷ []))
        (record { x = 0; y = 0 }) (record { x = 2; y = 0 }) (answer_of reply)) }
{
    let mut steps = Steps::<L>::new(blank);
    session.edit(1, 1, Ground::Land, &mut steps);
    session.query(alloc, 0, 0, 2, 0, &mut steps)
}

// Prints a reply as one line, a walk by its straight and diagonal moves and its points.
fn print_reply(rt: &impl Print, reply: &Reply) -> io::Result<()> {
    match reply {
        Reply::Walk { points, cost, .. } => {
            print!(rt; "walk {} {}", cost.a, cost.b)?;
            for point in points.as_slice() {
                print!(rt; " {},{}", point.x, point.y)?;
            }
            println!(rt)
        }
        Reply::None { .. } => println!(rt; "none"),
        Reply::Outside => println!(rt; "outside"),
        Reply::Blocked => println!(rt; "blocked"),
    }
}

// Prints the replies to queries from (0,0) to a cell that is closed in, one outside, and a blocked one.
fn print_others<L: Ledger>(
    alloc: Global,
    rt: &impl Print,
    session: &mut Session,
    blank: Blank,
) -> Result<()>
    requires name { blank.name ≡ L.name }
    requires parts { blank.parts ≡ L.parts }
    requires some { 0 < L.parts }
{
    let mut steps = Steps::<L>::new(blank);
    for (x, y) in [(4, 0), (5, 0), (1, 0)] {
        let reply = session.query(alloc, 0, 0, x, y, &mut steps)?;
        print_reply(rt, &reply)?;
    }
    Ok(())
}

fn main(rt: HostRuntime) -> Result<()> {
    let map = read_map(rt.alloc(), MAP)?;
    let mut session = Session::new(
        rt.alloc(),
        &map,
        Engine::Block(Layout::ByCell),
        Corner::Never,
    )?;
    let reply = reply_with_door::<Brand>(rt.alloc(), &mut session, Blank::new(1))?;
    print_reply(&rt, &reply)?;
    print_others::<Brand>(rt.alloc(), &rt, &mut session, Blank::new(1))
}
