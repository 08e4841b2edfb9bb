//! The search by rings.

ghost use Rattle.std.specs.Prelude.{◌≡◌, ◌≢◌, ◌+◌, ◌<◌, ◌^◌, true};
ghost use Rattle.grid_moves.specs.Grid.{GridData, is_free};
ghost use Rattle.grid_moves.specs.Points.{apart};
ghost use Rattle.joined_cells.specs.Joined.{label_of};
ghost use Rattle.components.specs.Kept.{Tells};
ghost use Rattle.nearest_cell.specs.Nearest.{IsNearest, IsNoFarther};
ghost use Rattle.nearest_cell.specs.Rings as spec;
ghost use Rattle.nearest_cell.specs.Rings.{IsFirstWithin};

use components::Components;
use grid_moves::{Cell, estimate};
use root2_cost::{Cost, octile};

// Whether c comes before d: by its estimate, then by its number.
fn is_nearer(goal: Cell, c: Cell, d: Cell) -> bool
    ensures { result ≡ spec.is_nearer goal c d }
{
    let (one, other) = (estimate(c, goal), estimate(d, goal));
    one.is_below(other) || one == other && (c.y < d.y || c.y == d.y && c.x < d.x)
}

// The nearer of the best cell so far and another one, if that has the label.
fn better(p: &Components, label: u32, goal: Cell, best: Cell, c: Cell) -> Cell
    requires some { label ≢ 0 }
    requires best { label_of p.now.labels best ≡ label }
    ensures label { label_of p.now.labels result ≡ label }
    ensures kept { IsNoFarther p.now.labels.width goal result best }
    ensures met { label_of p.now.labels c ≡ label → IsNoFarther p.now.labels.width goal result c }
{
    if p.label(c) != label {
        return best;
    }
    if is_nearer(goal, c, best) { c } else { best }
}

// The same over the cells that stand so many columns and rows off the goal.
fn better_off(p: &Components, label: u32, goal: Cell, dx: u16, dy: u16, best: Cell) -> Cell
    requires some { label ≢ 0 }
    requires best { label_of p.now.labels best ≡ label }
    requires column { goal.x + dx < 2 ^ 16 }
    requires row { goal.y + dy < 2 ^ 16 }
    ensures label { label_of p.now.labels result ≡ label }
    ensures kept { IsNoFarther p.now.labels.width goal result best }
    ensures met { (d : _) → label_of p.now.labels d ≡ label → apart d.x goal.x ≡ dx → apart d.y goal.y ≡ dy
        → IsNoFarther p.now.labels.width goal result d }
{
    let (left, right) = (goal.x.saturating_sub(dx), goal.x + dx);
    let (up, down) = (goal.y.saturating_sub(dy), goal.y + dy);
    let best = better(p, label, goal, best, Cell { x: left, y: up });
    let best = better(p, label, goal, best, Cell { x: right, y: up });
    let best = better(p, label, goal, best, Cell { x: left, y: down });
    better(p, label, goal, best, Cell { x: right, y: down })
}

// The same over a ring, where all within it were looked at.
fn better_on_ring(p: &Components, label: u32, goal: Cell, ring: u16, best: Cell) -> Cell
    requires some { label ≢ 0 }
    requires best { label_of p.now.labels best ≡ label }
    requires column { goal.x < 4096 }
    requires row { goal.y < 4096 }
    requires ring { ring < 4096 }
    requires first { IsFirstWithin p.now.labels label goal ring best }
    ensures label { label_of p.now.labels result ≡ label }
    ensures first { IsFirstWithin p.now.labels label goal (ring + 1) result }
{
    let mut best = best;
    for k in 0..ring + 1 {
        if estimate(best, goal).is_below(octile(u32::from(ring), u32::from(k))) {
            return best;
        }
        best = better_off(p, label, goal, ring, k, best);
        best = better_off(p, label, goal, k, ring, best);
    }
    best
}

/// Of the cells to which a walk leads from the start, the one whose estimate to the goal is least; of those
/// of equal estimate the one of the least number. The goal is any cell of the map. No memory is taken.
///
/// Where the start is not free, it is the start.
pub fn nearest(p: &Components, start: Cell, goal: Cell) -> Cell
    requires column { goal.x < p.now.labels.width }
    requires row { goal.y < p.now.labels.height }
    ensures { (g : GridData) → Tells g p.now → p.now.fresh ≡ true → is_free g start ≡ true
        → IsNearest g start goal result }
{
    let label = p.label(start);
    let mut best = start;
    if label == 0 {
        return best;
    }
    for ring in 0..p.width().max(p.height()) {
        let width = Cost {
            a: u32::from(ring),
            b: 0,
        };
        if estimate(best, goal).is_below(width) {
            return best;
        }
        best = better_on_ring(p, label, goal, ring, best);
    }
    best
}
