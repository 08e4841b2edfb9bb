//! The forms of the lines of a certificate.
//!
//! Each line is words parted by one space, with nothing before the first and after the last.

ghost use Rattle.std.specs.Prelude.{◌≡◌, ◌<◌, ◌≤◌, ◌+◌, ◌^◌, ◌∷◌, IsTrue, IfOk, IfSome, MatchOption, Some};
ghost use Rattle.std.specs.Prelude.{None, length, position};
ghost use Rattle.cell_lines.specs.Parts.{parts, parts_behind};
ghost use Rattle.potential_check.specs.Certificate.{are_points, are_sides, is_short, is_small};
ghost use Rattle.potential_check.specs.Forms as spec;
ghost use Rattle.potential_check.specs.Forms.{is_space};

use cell_lines::{first_two, point, two_numbers};
use grid_moves::Cell;
use path_points::Points;
use root2_cost::Cost;
use std::alloc::{AllocError, Global};

// The first word of a line, and what stands behind the space after it, if there is one.
fn first_word(line: &[u8]) -> (&[u8], Option<&[u8]>)
    ensures words { parts 32 line.now ≡ result.0.now ∷ parts_behind 32 result.1 }
    ensures shorter { IfSome result.1 (λ rest. length result.0.now + length rest.now < length line.now) }
{
    match place_of_space(line) {
        Some(end) => (&line[..end], Some(&line[end + 1..])),
        None => (line, None),
    }
}

// Where the first space stands, if there is one.
fn place_of_space(line: &[u8]) -> Option<usize>
    ensures { result ≡ position is_space line.now }
{
    line.iter().position(|byte| *byte == b' ')
}

// What stands behind the line's first word and a space, where it is this word.
#[inline(always)]
fn after_word<'a>(word: &[u8], line: &'a [u8]) -> Option<&'a [u8]>
    ensures words { parts_behind 32 result ≡ spec.words_after word.now line.now }
    ensures shorter { IfSome result (λ rest. length word.now + length rest.now < length line.now) }
{
    let (first, rest) = first_word(line);
    if first == word { rest } else { None }
}

// The cell of a column and a row of at most four digits.
#[inline(always)]
fn cell_of(place: (u32, u32)) -> Cell
    requires x { place.0 < 10 ^ 4 }
    requires y { place.1 < 10 ^ 4 }
    ensures cell { result ≡ spec.cell_of place }
    ensures short { IsTrue (is_short result) }
{
    Cell {
        x: place.0 as u16,
        y: place.1 as u16,
    }
}

// The cost of two parts of at most nine digits.
#[inline(always)]
fn cost_of(parts: (u32, u32)) -> Cost
    requires a { parts.0 < 10 ^ 9 }
    requires b { parts.1 < 10 ^ 9 }
    ensures cost { result ≡ spec.cost_of parts }
    ensures small { IsTrue (is_small result) }
{
    Cost {
        a: parts.0,
        b: parts.1,
    }
}

/// The sides on a line `size W H`.
pub(crate) fn size_on(line: &[u8]) -> Option<(u16, u16)>
    ensures size { result ≡ spec.size_on line.now }
    ensures sides { IfSome result (λ sides. IsTrue (are_sides sides.0 sides.1)) }
{
    let (width, height) = two_numbers(b' ', 9, after_word(b"size", line)?)?;
    if 1 <= width && width <= 4096 && 1 <= height && height <= 4096 {
        Some((width as u16, height as u16))
    } else {
        None
    }
}

/// Start and goal on a line `ends SX SY GX GY`.
pub(crate) fn ends_on(line: &[u8]) -> Option<(Cell, Cell)>
    ensures ends { result ≡ spec.ends_on line.now }
    ensures start { IfSome result (λ ends. IsTrue (is_short ends.0)) }
    ensures goal { IfSome result (λ ends. IsTrue (is_short ends.1)) }
{
    let (start, rest) = first_two(b' ', 4, after_word(b"ends", line)?)?;
    let goal = two_numbers(b' ', 4, rest?)?;
    Some((cell_of(start), cell_of(goal)))
}

/// The cost on a line `least A B`.
pub(crate) fn least_on(line: &[u8]) -> Option<Cost>
    ensures cost { result ≡ spec.least_on line.now }
    ensures small { IfSome result (λ cost. IsTrue (is_small cost)) }
{
    let parts = two_numbers(b' ', 9, after_word(b"least", line)?)?;
    Some(cost_of(parts))
}

/// The points on a line `points X,Y X,Y ..` of at most 2^30 bytes, or none where it has another form.
pub(crate) fn points_on(alloc: Global, line: &[u8]) -> Result<Option<Points>, AllocError>
    requires { length line.now ≤ 2 ^ 30 }
    ensures points { IfOk result (λ points. MatchOption points
        (spec.points_on line.now ≡ None)
        (λ points. spec.points_on line.now ≡ Some points)) }
    ensures may { IfOk result (λ points. IfSome points (λ points. IsTrue (are_points points))) }
{
    let Some(mut rest) = after_word(b"points", line) else {
        return Ok(None);
    };
    let mut points = Points::new(alloc);
    loop {
        let (word, more) = first_word(rest);
        let Some(point) = point(word) else {
            return Ok(None);
        };
        points.push(point)?;
        match more {
            Some(behind) => rest = behind,
            None => return Ok(Some(points)),
        }
    }
}

/// The cell and its value on a line `value X Y A B`.
#[inline(never)]
pub(crate) fn value_on(line: &[u8]) -> Option<(Cell, Cost)>
    ensures value { result ≡ spec.value_on line.now }
    ensures small { IfSome result (λ entry. IsTrue (is_small entry.1)) }
{
    let (place, rest) = first_two(b' ', 4, after_word(b"value", line)?)?;
    let parts = two_numbers(b' ', 9, rest?)?;
    Some((cell_of(place), cost_of(parts)))
}

/// The cell on a line `in X Y`.
pub(crate) fn member_on(line: &[u8]) -> Option<Cell>
    ensures { result ≡ spec.member_on line.now }
{
    let place = two_numbers(b' ', 4, after_word(b"in", line)?)?;
    Some(cell_of(place))
}
