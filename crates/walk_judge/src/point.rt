//! Points of a line.

ghost use Rattle.std.specs.Prelude.{◌≡◌, IfOk};
ghost use Rattle.cell_lines.specs.Parts.{points_in};
ghost use Rattle.text_line.specs.Fields.{fields_of};

use crate::NoMemory;
use cell_lines::point;
use path_points::Points;
use std::alloc::Global;
use text_line::Fields;

/// The points on a line whose fields are points, or none where a field is no point.
pub(crate) fn points_on(alloc: Global, line: &[u8]) -> Result<Option<Points>, NoMemory>
    ensures { IfOk result (λ points. points ≡ points_in (fields_of line.now)) }
{
    let mut points = Points::new(alloc);
    for field in Fields::of(line) {
        let Some(point) = point(field) else {
            return Ok(None);
        };
        points.push(point)?;
    }
    Ok(Some(points))
}
