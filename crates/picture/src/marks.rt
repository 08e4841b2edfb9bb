//! The walk and its ends.

ghost use Rattle.std.specs.Prelude.{◌≡◌, ◌++◌, [], ◌∷◌, OnOk, decimal};
ghost use Rattle.std.specs.Option.{option_map};
ghost use Rattle.map_text.specs.Writing.{text_of};
ghost use Rattle.picture.specs.Picture as spec;

use crate::NoMemory;
use crate::answer::DrawnWalk;
use cell_lines::put_cell;
use grid_moves::Cell;
use text_line::{put, put_number};

/// Appends the points, parted by one space.
fn put_points(out: &mut Vec<u8>, points: &[Cell]) -> Result<(), NoMemory>
    ensures { OnOk result (out.new.items ≡ out.old.items ++ spec.points_text points.now) }
{
    match points {
        [] => Ok(()),
        [first, others @ ..] => {
            put_cell(out, *first)?;
            cell_lines::put_points(out, others)
        }
    }
}

/// Appends a number of tenths.
fn put_tenths(out: &mut Vec<u8>, tenths: u64) -> Result<(), NoMemory>
    ensures { OnOk result (out.new.items ≡ out.old.items ++ spec.tenths_text tenths) }
{
    put_number(out, tenths / 10)?;
    put(out, b".")?;
    put_number(out, tenths % 10)
}

/// Appends the line of the walk, if there is one, in this width.
pub(crate) fn put_walk(
    out: &mut Vec<u8>,
    tenths: u64,
    walk: Option<DrawnWalk<'_>>,
) -> Result<(), NoMemory>
    ensures { OnOk result (out.new.items ≡
        out.old.items ++ text_of (spec.walk_lines tenths (option_map spec.plain_walk walk.entry))) }
{
    match walk {
        None => Ok(()),
        Some(walk) => put_line(out, tenths, walk),
    }
}

/// Appends the line of a walk.
fn put_line(out: &mut Vec<u8>, tenths: u64, walk: DrawnWalk<'_>) -> Result<(), NoMemory>
    ensures { OnOk result (out.new.items ≡
        out.old.items ++ text_of (spec.walk_line tenths (spec.plain_walk walk.entry) ∷ [])) }
{
    put(
        out,
        b"<polyline transform=\"translate(.5 .5)\" fill=\"none\" stroke=\"#d1352b\" stroke-width=\"",
    )?;
    put_tenths(out, tenths)?;
    put(out, b"\" points=\"")?;
    put_points(out, walk.points)?;
    put(out, b"\"/>\n")
}

/// Appends the radius of an end, behind the whole part of its row.
fn put_radius(out: &mut Vec<u8>, tenths: u64) -> Result<(), NoMemory>
    ensures { OnOk result (out.new.items ≡ out.old.items ++ spec.radius_text tenths) }
{
    put(out, b".5\" r=\"")?;
    put_tenths(out, tenths)
}

/// Appends the line of an end.
pub(crate) fn put_end(
    out: &mut Vec<u8>,
    tenths: u64,
    colour: &[u8],
    c: Cell,
) -> Result<(), NoMemory>
    ensures { OnOk result (out.new.items ≡
        out.old.items ++ text_of (spec.end_line tenths colour.now c ∷ [])) }
{
    put_centre(out, c)?;
    put_radius(out, tenths)?;
    put(out, b"\" fill=\"")?;
    put(out, colour)?;
    put(out, b"\"/>\n")
}

/// Appends the beginning of the line of an end, up to the whole part of its row.
fn put_centre(out: &mut Vec<u8>, c: Cell) -> Result<(), NoMemory>
    ensures { OnOk result (out.new.items ≡ out.old.items ++ spec.centre_text c) }
{
    put_named(out, b"<circle cx=\"", c.x)?;
    put_named(out, b".5\" cy=\"", c.y)
}

/// Appends the bytes and a number behind them.
pub(crate) fn put_named(out: &mut Vec<u8>, name: &[u8], n: u16) -> Result<(), NoMemory>
    ensures { OnOk result (out.new.items ≡ out.old.items ++ (name.now ++ decimal n)) }
{
    put(out, name)?;
    put_number(out, u64::from(n))
}
