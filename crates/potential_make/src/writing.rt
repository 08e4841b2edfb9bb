//! The text of a certificate.

ghost use Rattle.std.specs.Prelude.{◌≡◌, ◌++◌, true, OnOk, IfOk};
ghost use Rattle.grid_moves.specs.Grid.{is_free};
ghost use Rattle.potential_make.specs.Made.{made_certificate};
ghost use Rattle.potential_make.specs.Written as spec;

use crate::NoMemory;
use cell_lines::put_points;
use grid_moves::{Cell, Grid, Terrain};
use plain_search::{Listed, least};
use root2_cost::Cost;
use std::alloc::Global;
use text_line::{put, put_number};

/// The certificate of the least cost between two free cells of a grid, or that no walk exists: the
/// plain engine's points, and its closed or reached cells. It is accepted: law `certificates_are_accepted`.
///
/// It takes as long as the plain engine, a pass over all cells, and writing the list.
pub fn certificate(alloc: Global, g: &Grid, from: Cell, to: Cell) -> Result<Vec<u8>, NoMemory>
    requires from { is_free g.now from ≡ true }
    requires to { is_free g.now to ≡ true }
    ensures { IfOk result (λ text. text.items ≡ made_certificate g.now from to) }
{
    let found = least(alloc, g, from, to)?;
    let mut text = Vec::new(alloc);
    put_head(&mut text, g, from, to)?;
    put_claim(&mut text, &found)?;
    put(&mut text, b"end\n")?;
    Ok(text)
}

// Appends the number behind a space.
fn put_next(out: &mut Vec<u8>, n: u32) -> Result<(), NoMemory>
    ensures { OnOk result (out.new.items ≡ out.old.items ++ spec.number_text n) }
{
    put(out, b" ")?;
    put_number(out, u64::from(n))
}

// Appends each number behind a space.
fn put_numbers(out: &mut Vec<u8>, numbers: &[u32]) -> Result<(), NoMemory>
    ensures { OnOk result (out.new.items ≡ out.old.items ++ spec.texts_of spec.number_text numbers.now) }
{
    for n in numbers {
        put_next(out, *n)?;
    }
    Ok(())
}

// Appends a line of the word and the numbers.
fn put_line(out: &mut Vec<u8>, word: &[u8], numbers: &[u32]) -> Result<(), NoMemory>
    ensures { OnOk result (out.new.items ≡ out.old.items ++ spec.line_text word.now numbers.now) }
{
    put(out, word)?;
    put_numbers(out, numbers)?;
    put(out, b"\n")
}

// Appends the lines that begin a certificate.
fn put_head(out: &mut Vec<u8>, g: &Grid, from: Cell, to: Cell) -> Result<(), NoMemory>
    ensures { OnOk result (out.new.items ≡ out.old.items ++ spec.head_text g.now.width g.now.height from to) }
{
    let (width, height) = (u32::from(g.width()), u32::from(g.height()));
    put(out, b"jps-cert 1\n")?;
    put_line(out, b"size", &[width, height])?;
    put_ends(out, from, to)
}

// Appends the line of the ends.
fn put_ends(out: &mut Vec<u8>, from: Cell, to: Cell) -> Result<(), NoMemory>
    ensures { OnOk result (out.new.items ≡ out.old.items ++ spec.ends_text from to) }
{
    put_line(
        out,
        b"ends",
        &[
            u32::from(from.x),
            u32::from(from.y),
            u32::from(to.x),
            u32::from(to.y),
        ],
    )
}

// Appends the lines of the claim.
fn put_claim(out: &mut Vec<u8>, found: &Listed) -> Result<(), NoMemory>
    ensures { OnOk result (out.new.items ≡ out.old.items ++ spec.claim_text (spec.claim_of found.now)) }
{
    match found {
        Listed::Found {
            points,
            cost,
            closed,
            ..
        } => {
            put_least(out, *cost, points.as_slice())?;
            put_values(out, closed.as_slice())
        }
        Listed::None { reached, .. } => {
            put(out, b"none\n")?;
            put_members(out, reached.as_slice())
        }
    }
}

// Appends the line of the cost and that of the points.
fn put_least(out: &mut Vec<u8>, cost: Cost, points: &[Cell]) -> Result<(), NoMemory>
    ensures { OnOk result (out.new.items ≡ out.old.items ++ spec.least_text cost points.now) }
{
    put_line(out, b"least", &[cost.a, cost.b])?;
    put(out, b"points")?;
    put_points(out, points)?;
    put(out, b"\n")
}

// Appends the line of a value.
fn put_value(out: &mut Vec<u8>, c: Cell, cost: Cost) -> Result<(), NoMemory>
    ensures { OnOk result (out.new.items ≡ out.old.items ++ spec.value_text (c, cost)) }
{
    put_line(
        out,
        b"value",
        &[u32::from(c.x), u32::from(c.y), cost.a, cost.b],
    )
}

// Appends a line for each value.
fn put_values(out: &mut Vec<u8>, values: &[(Cell, Cost)]) -> Result<(), NoMemory>
    ensures { OnOk result (out.new.items ≡ out.old.items ++ spec.texts_of spec.value_text values.now) }
{
    for entry in values {
        put_value(out, entry.0, entry.1)?;
    }
    Ok(())
}

// Appends the line of a listed cell.
fn put_member(out: &mut Vec<u8>, c: Cell) -> Result<(), NoMemory>
    ensures { OnOk result (out.new.items ≡ out.old.items ++ spec.member_text c) }
{
    put_line(out, b"in", &[u32::from(c.x), u32::from(c.y)])
}

// Appends a line for each cell.
fn put_members(out: &mut Vec<u8>, cells: &[Cell]) -> Result<(), NoMemory>
    ensures { OnOk result (out.new.items ≡ out.old.items ++ spec.texts_of spec.member_text cells.now) }
{
    for c in cells {
        put_member(out, *c)?;
    }
    Ok(())
}
