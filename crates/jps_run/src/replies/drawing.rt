//! A picture of a query.

ghost use Rattle.std.specs.Prelude.{◌≡◌, IfOk, OnOk};
ghost use Rattle.std.specs.Option.{option_map};
ghost use Rattle.map_text.specs.Faults.{plain};
ghost use Rattle.picture.specs.Picture as pictures;
ghost use Rattle.jps_run.specs.Pictures as spec;
ghost use Rattle.line_work.specs.Sending.{SendsWhole};
ghost use Rattle.jps_run.specs.Rising.{RoseForQuery};
ghost use Rattle.jps_run.specs.Who.{reply_to, who_is};

use crate::NoMemory;
use crate::replies::session_on;
use call_files::{Extent, OfMap};
use cell_lines::AskedEnds;
use edit_replay::{Reply, Session};
use grid_moves::Cell;
use io_edge::Sink;
use line_work::{Printed, Stop, said, send_text};
use map_text::MapText;
use picture::DrawnWalk;
use std::alloc::Global;
use std::sync::ledger::Ledger;
use steps::Steps;
use word_list::{Settings, Show};

/// A map, and a session on it.
#[derive(Drop)]
pub struct Canvas {
    pub map: MapText,
    pub session: Session,
}

impl OfMap for Canvas {
    ghost use Rattle.jps_run.specs.Pictures.{IsCanvasOf};
    ghost use Rattle.call_files.specs.declared.kind.Extent.TheVariants.{Any};

    ghost extent_of = { λ _. Any };

    ghost is_of_map = { IsCanvasOf };

    fn extent(_settings: Settings) -> Extent {
        Extent::Any
    }

    fn of_map(alloc: Global, map: MapText, settings: Settings) -> Result<Canvas, NoMemory> {
        let session = session_on(alloc, &map, settings)?;
        Ok(Canvas { map, session })
    }
}

// The picture of a query that was searched, with the taken states where they are shown.
fn picture_of(
    alloc: Global,
    map: &MapText,
    from: Cell,
    to: Cell,
    show: Show,
    walk: Option<DrawnWalk<'_>>,
    taken: &[u32],
) -> Result<Vec<u8>, NoMemory>
    ensures { IfOk result (λ text. text.items ≡ pictures.picture_of (plain map.now) from to
        (option_map pictures.plain_walk walk.entry) (spec.drawn_states show taken.now)) }
{
    match show {
        Show::Points | Show::Cells | Show::Taken => {
            picture::draw(alloc, map, from, to, walk, None)
        }
        Show::Trace => picture::draw(alloc, map, from, to, walk, Some(taken)),
    }
}

// What is printed for the reply to a query.
fn drawing_of(
    alloc: Global,
    map: &MapText,
    from: Cell,
    to: Cell,
    show: Show,
    reply: &Reply,
) -> Result<Printed, NoMemory>
    ensures text { IfOk result
        (λ p. p.text.items ≡ spec.drawing_of (plain map.now) from to show reply.now) }
    ensures status { IfOk result (λ p. p.status ≡ spec.drawing_status reply.now) }
{
    match reply {
        Reply::Outside => said(alloc, b"outside\n"),
        Reply::Blocked => said(alloc, b"blocked\n"),
        Reply::None { taken } => {
            let text = picture_of(alloc, map, from, to, show, None, taken.as_slice())?;
            Ok(Printed { text, status: 0 })
        }
        Reply::Walk {
            points,
            cost,
            taken,
        } => {
            let walk = DrawnWalk {
                points: points.as_slice(),
                cost: *cost,
            };
            let text = picture_of(alloc, map, from, to, show, Some(walk), taken.as_slice())?;
            Ok(Printed { text, status: 0 })
        }
    }
}

// Searches the query, and makes what is printed for it.
fn drawn<L: Ledger>(
    alloc: Global,
    map: &MapText,
    session: &mut Session,
    ends: AskedEnds,
    show: Show,
    steps: &mut Steps<L>,
) -> Result<Printed, NoMemory>
    ensures text { IfOk result (λ p. p.text.items ≡ spec.drawing_of (plain map.now)
        (record { x = ends.sx; y = ends.sy }) (record { x = ends.gx; y = ends.gy }) show
        (reply_to (who_is session.old) (record { x = ends.sx; y = ends.sy })
        (record { x = ends.gx; y = ends.gy }))) }
    ensures status { IfOk result (λ p. p.status ≡ spec.drawing_status
        (reply_to (who_is session.old) (record { x = ends.sx; y = ends.sy })
        (record { x = ends.gx; y = ends.gy }))) }
    ensures counted { OnOk result (RoseForQuery (who_is session.old) (record { x = ends.sx; y = ends.sy })
        (record { x = ends.gx; y = ends.gy }) steps.old steps.new) }
{
    let Some(from) = session.cell_at(ends.sx, ends.sy) else {
        return said(alloc, b"outside\n");
    };
    let Some(to) = session.cell_at(ends.gx, ends.gy) else {
        return said(alloc, b"outside\n");
    };
    let reply = session.query(alloc, ends.sx, ends.sy, ends.gx, ends.gy, steps)?;
    drawing_of(alloc, map, from, to, show, &reply)
}

/// Searches the query, and writes its picture. All memory is taken before the first byte.
pub fn write_drawing<O: Sink, L: Ledger>(
    alloc: Global,
    canvas: &mut Canvas,
    ends: AskedEnds,
    show: Show,
    out: &mut O,
    steps: &mut Steps<L>,
) -> Result<u8, Stop>
    ensures sent { SendsWhole (spec.IsPictured canvas.old (record { x = ends.sx; y = ends.sy })
        (record { x = ends.gx; y = ends.gy }) show) (O.outflow out.old) (O.outflow out.new) result }
    ensures counted { OnOk result
        (RoseForQuery (who_is canvas.old.session) (record { x = ends.sx; y = ends.sy })
        (record { x = ends.gx; y = ends.gy }) steps.old steps.new) }
{
    match drawn(alloc, &canvas.map, &mut canvas.session, ends, show, steps) {
        Ok(printed) => send_text(out, printed.text.as_slice(), printed.status),
        Err(_) => Err(Stop::Memory),
    }
}
