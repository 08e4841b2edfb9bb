//! A picture line by line.

ghost use Rattle.std.specs.Prelude.{◌≡◌, ◌++◌, [], ◌∷◌, OnOk, IfOk};
ghost use Rattle.std.specs.Option.{option_map, option_copied};
ghost use Rattle.map_text.specs.Faults.{plain};
ghost use Rattle.map_text.specs.Writing.{text_of};
ghost use Rattle.picture.specs.Picture as spec;

use crate::NoMemory;
use crate::answer::DrawnWalk;
use crate::kinds::DrawnGround;
use crate::marks::{put_end, put_named, put_walk};
use crate::strokes::{put_states, put_strokes};
use cell_lines::put_cell;
use grid_moves::Cell;
use map_text::MapText;
use root2_cost::Cost;
use std::alloc::Global;
use text_line::{put, put_number};

/// The text of the picture of a query on a map: the map by its grounds, the walk, if there is one, its
/// two ends, and the cells of the taken states, if they are shown.
///
/// A state's number is nine times its cell's number, row by row from 0, and its arrival. The map is
/// passed over once for each ground.
pub fn draw(
    alloc: Global,
    map: &MapText,
    start: Cell,
    goal: Cell,
    walk: Option<DrawnWalk<'_>>,
    taken: Option<&[u32]>,
) -> Result<Vec<u8>, NoMemory>
    ensures { IfOk result (λ text. text.items ≡ spec.picture_of (plain map.now) start goal
        (option_map spec.plain_walk walk.entry) (option_copied taken.entry)) }
{
    let mut out = Vec::new(alloc);
    put_head(&mut out, map, start, goal, walk)?;
    put_grounds(&mut out, map)?;
    put_taken(&mut out, map, taken)?;
    let tenths = thickness(map);
    put_walk(&mut out, tenths, walk)?;
    put_ends(&mut out, tenths, start, goal)?;
    Ok(out)
}

/// The width of the walk and the radius of its ends, in tenths of a cell.
fn thickness(map: &MapText) -> u64
    ensures { result ≡ spec.thickness (plain map.now) }
{
    4 + u64::from(map.width).max(u64::from(map.height)) / 32
}

/// Appends the lines before the grounds.
fn put_head(
    out: &mut Vec<u8>,
    map: &MapText,
    start: Cell,
    goal: Cell,
    walk: Option<DrawnWalk<'_>>,
) -> Result<(), NoMemory>
    ensures { OnOk result (out.new.items ≡ out.old.items ++
        text_of (spec.head_lines (plain map.now) start goal (option_map spec.plain_walk walk.entry))) }
{
    put_frame(out, map)?;
    put_title(out, start, goal, walk)?;
    put_background(out, map)
}

/// Appends the first line.
fn put_frame(out: &mut Vec<u8>, map: &MapText) -> Result<(), NoMemory>
    ensures { OnOk result (out.new.items ≡ out.old.items ++ text_of (spec.frame_line (plain map.now) ∷ [])) }
{
    put_named(
        out,
        b"<svg xmlns=\"http://www.w3.org/2000/svg\" viewBox=\"0 0 ",
        map.width,
    )?;
    put_named(out, b" ", map.height)?;
    put(out, b"\">\n")
}

/// Appends the title.
fn put_title(
    out: &mut Vec<u8>,
    start: Cell,
    goal: Cell,
    walk: Option<DrawnWalk<'_>>,
) -> Result<(), NoMemory>
    ensures { OnOk result (out.new.items ≡
        out.old.items ++ text_of (spec.title_line start goal (option_map spec.plain_walk walk.entry) ∷ [])) }
{
    put(out, b"<title>")?;
    put_found(out, walk)?;
    put(out, b" from ")?;
    put_between(out, start, goal)?;
    put(out, b"</title>\n")
}

/// Appends what was found.
fn put_found(out: &mut Vec<u8>, walk: Option<DrawnWalk<'_>>) -> Result<(), NoMemory>
    ensures { OnOk result (out.new.items ≡
        out.old.items ++ spec.found_text (option_map spec.plain_walk walk.entry)) }
{
    match walk {
        None => put(out, b"none"),
        Some(walk) => put_cost(out, walk.cost),
    }
}

/// Appends that a walk of this cost was found.
fn put_cost(out: &mut Vec<u8>, cost: Cost) -> Result<(), NoMemory>
    ensures { OnOk result (out.new.items ≡ out.old.items ++ spec.cost_text cost) }
{
    put(out, b"walk ")?;
    put_number(out, u64::from(cost.a))?;
    put(out, b" ")?;
    put_number(out, u64::from(cost.b))
}

/// Appends both ends.
fn put_between(out: &mut Vec<u8>, start: Cell, goal: Cell) -> Result<(), NoMemory>
    ensures { OnOk result (out.new.items ≡ out.old.items ++ spec.ends_text start goal) }
{
    put_cell(out, start)?;
    put(out, b" to ")?;
    put_cell(out, goal)
}

/// Appends the line of the background.
fn put_background(out: &mut Vec<u8>, map: &MapText) -> Result<(), NoMemory>
    ensures { OnOk result (out.new.items ≡
        out.old.items ++ text_of (spec.background_line (plain map.now) ∷ [])) }
{
    put_named(out, b"<rect width=\"", map.width)?;
    put_named(out, b"\" height=\"", map.height)?;
    put(out, b"\" fill=\"#f4f1e8\"/>\n")
}

/// Appends the lines of the grounds.
fn put_grounds(out: &mut Vec<u8>, map: &MapText) -> Result<(), NoMemory>
    ensures { OnOk result (out.new.items ≡ out.old.items ++ text_of (spec.ground_lines (plain map.now))) }
{
    put_ground(out, DrawnGround::Swamp, map)?;
    put_ground(out, DrawnGround::Trees, map)?;
    put_ground(out, DrawnGround::Wall, map)?;
    put_ground(out, DrawnGround::Water, map)
}

/// Appends the line of a ground.
fn put_ground(out: &mut Vec<u8>, kind: DrawnGround, map: &MapText) -> Result<(), NoMemory>
    ensures { OnOk result (out.new.items ≡
        out.old.items ++ text_of (spec.ground_line kind (plain map.now) ∷ [])) }
{
    let cells = map.cells.as_slice();
    put_path(out, kind.colour())?;
    put_strokes(out, kind, cells, map.width as usize, map.height as usize)?;
    put(out, b"\"/>\n")
}

/// Appends the beginning of a line of strokes.
fn put_path(out: &mut Vec<u8>, colour: &[u8]) -> Result<(), NoMemory>
    ensures { OnOk result (out.new.items ≡ out.old.items ++ spec.path_text colour.now) }
{
    put(
        out,
        b"<path transform=\"translate(0 .5)\" shape-rendering=\"crispEdges\" stroke=\"",
    )?;
    put(out, colour)?;
    put(out, b"\" d=\"")
}

/// Appends the line of the taken states, if they are shown.
fn put_taken(out: &mut Vec<u8>, map: &MapText, taken: Option<&[u32]>) -> Result<(), NoMemory>
    ensures { OnOk result (out.new.items ≡
        out.old.items ++ text_of (spec.taken_lines (plain map.now).width (option_copied taken.entry))) }
{
    match taken {
        None => Ok(()),
        Some(states) => put_states_line(out, map, states),
    }
}

/// Appends the line of the taken states.
fn put_states_line(out: &mut Vec<u8>, map: &MapText, states: &[u32]) -> Result<(), NoMemory>
    ensures { OnOk result (out.new.items ≡
        out.old.items ++ text_of (spec.states_line (plain map.now).width states.now ∷ [])) }
{
    put_path(out, b"#f2b84b")?;
    put_states(out, map.width, states)?;
    put(out, b"\"/>\n")
}

/// Appends the lines of both ends and the last line.
fn put_ends(out: &mut Vec<u8>, tenths: u64, start: Cell, goal: Cell) -> Result<(), NoMemory>
    ensures { OnOk result (out.new.items ≡ out.old.items ++ text_of (spec.end_lines tenths start goal)) }
{
    put_end(out, tenths, b"#1f6f43", start)?;
    put_end(out, tenths, b"#7b2d8b", goal)?;
    put(out, b"</svg>\n")
}
