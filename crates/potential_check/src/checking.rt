//! Checks of certificates.

ghost use Rattle.std.specs.Prelude.{◌≡◌, ◌^◌, ◌<◌, length, Ok, Err, IfOk, IfErr, IsTrue};
ghost use Rattle.std.specs.List.{list_all};
ghost use Rattle.grid_moves.specs.Grid.{IsGrid};
ghost use Rattle.potential_check.specs.Accepted as spec;
ghost use Rattle.potential_check.specs.Accepted.{Holds, IsAccepted, Refuses, proof_of};
ghost use Rattle.potential_check.specs.Certificate.{are_listed, cells_of, is_claim, is_short, is_small};
ghost use Rattle.potential_check.specs.Answers.{certificate_answer, claim_answer, bad_number};
ghost use Rattle.potential_check.specs.Moves.{first_failing};
ghost use Rattle.potential_check.specs.Potential as potentials;
ghost use Rattle.potential_check.specs.Text.{plain};
ghost use Rattle.potential_check.specs.Walks.{walk_answer};
ghost use Rattle.potential_check.specs.declared.certificate.Claim.TheVariants as claims;
ghost use Rattle.potential_check.specs.declared.verdict.Reject.{Reject};

use crate::between::walk_between;
use crate::certificate::{Certificate, Claim};
use crate::heights::Heights;
use crate::rising::Hills;
use crate::verdict::{Proof, Reject};
use grid_moves::{Cell, Grid, Terrain, estimate};
use path_points::{Cells, Costs, Points};
use root2_cost::{Cost, Signed};

/// What the certificate proves of the grid, or the first clause that it fails.
///
/// The clauses are tested in the order of `Reject`. The points and the list are passed over a few
/// times, and the cells of the grid once. No memory is taken.
pub fn check(g: &Grid, c: &Certificate) -> Result<Proof, Reject>
    // What is accepted holds of all walks on the grid.
    ensures proves { IfOk result (λ proof. Holds g.now c.now.start c.now.goal proof) }
    // Only what meets all clauses is accepted, and all of that is.
    ensures ok { IfOk result (λ proof. IsAccepted g.now c.now) }
    ensures accepts { IsAccepted g.now c.now → result ≡ Ok (proof_of c.now.claim) }
    // All else is refused by the first clause that it fails, with its numbers.
    ensures err { IfErr result (Refuses g.now c.now) }
    ensures refuses { (reject : Reject) → Refuses g.now c.now reject → result ≡ Err reject }
    // So the answer is a function of the grid and of what the certificate holds.
    ensures is { result ≡ certificate_answer g.now (plain c.now) }
{
    answer(g, c)
}

// The same, whose clause is the function alone.
fn answer(g: &Grid, c: &Certificate) -> Result<Proof, Reject>
    ensures { result ≡ certificate_answer g.now (plain c.now) }
{
    if !has_size(g, c) {
        return Err(Reject::Size);
    }
    if !has_free_ends(g, c) {
        return Err(Reject::Ends);
    }
    check_claim(g, c.start, c.goal, &c.claim)
}

// Whether the stated size is the grid's.
fn has_size(g: &Grid, c: &Certificate) -> bool
    ensures is { result ≡ spec.has_size g.now c.now }
    ensures whole { IsGrid g.now }
{
    g.width() == c.width && g.height() == c.height
}

// Whether both ends are free cells of the grid.
fn has_free_ends(g: &Grid, c: &Certificate) -> bool
    ensures { result ≡ spec.has_free_ends g.now c.now }
{
    g.free(c.start) && g.free(c.goal)
}

// What the claim about walks from s to t proves, or the first clause that it fails.
fn check_claim(g: &Grid, s: Cell, t: Cell, claim: &Claim) -> Result<Proof, Reject>
    requires whole { IsGrid g.now }
    requires goal { IsTrue (is_short t) }
    requires claim { IsTrue (is_claim g.now.width g.now.height claim.now) }
    ensures { result ≡ claim_answer g.now s t claim.now }
{
    match claim {
        Claim::Least {
            cost,
            points,
            values,
        } => check_least(g, s, t, *cost, points, values),
        Claim::NoWalk { cells } => check_none(g, s, t, cells),
    }
}

// The same for a claim of least cost.
fn check_least(
    g: &Grid,
    s: Cell,
    t: Cell,
    cost: Cost,
    points: &Points,
    values: &Costs,
) -> Result<Proof, Reject>
    requires whole { IsGrid g.now }
    requires goal { IsTrue (is_short t) }
    requires claim { IsTrue (is_claim g.now.width g.now.height (claims.Least cost points.now values.now)) }
    ensures { result ≡ claim_answer g.now s t (claims.Least cost points.now values.now) }
{
    if let Some(i) = bad_point(g, s, t, cost, points) {
        return Err(Reject::Walk(i));
    }
    if !is_value(potential(cost, t, values, s), Cost { a: 0, b: 0 }) {
        return Err(Reject::Start);
    }
    if !is_value(potential(cost, t, values, t), cost) {
        return Err(Reject::Goal);
    }
    match first_raise(g, t, cost, values) {
        Some((u, v)) => Err(Reject::Move(u, v)),
        None => Ok(Proof::Least(cost)),
    }
}

// The same for a claim that no walk exists.
fn check_none(g: &Grid, s: Cell, t: Cell, cells: &Cells) -> Result<Proof, Reject>
    requires whole { IsGrid g.now }
    requires claim { IsTrue (is_claim g.now.width g.now.height (claims.NoWalk cells.now)) }
    ensures { result ≡ claim_answer g.now s t (claims.NoWalk cells.now) }
{
    if !is_listed(cells, s) {
        return Err(Reject::Start);
    }
    if is_listed(cells, t) {
        return Err(Reject::Goal);
    }
    match first_way_out(g, cells) {
        Some((u, v)) => Err(Reject::Open(u, v)),
        None => Ok(Proof::NoWalk),
    }
}

// The first legal move that raises the potential by more than its cost.
fn first_raise(g: &Grid, t: Cell, cost: Cost, values: &Costs) -> Option<(Cell, Cell)>
    requires whole { IsGrid g.now }
    requires goal { IsTrue (is_short t) }
    requires cost { IsTrue (is_small cost) }
    requires values { IsTrue (list_all (λ entry. is_small entry.1) values.now) }
    requires listed { IsTrue (are_listed g.now.width g.now.height (cells_of values.now)) }
    ensures { result ≡ first_failing g.now (potentials.rises (potentials.potential_of cost t values.now)) }
{
    let heights = Heights::Values {
        cost,
        goal: t,
        rest: values.as_slice(),
    };
    let slopes = Hills { grid: g, heights };
    slopes.first_climb()
}

// The first legal move from a listed cell to one that is not.
fn first_way_out(g: &Grid, cells: &Cells) -> Option<(Cell, Cell)>
    requires whole { IsGrid g.now }
    requires listed { IsTrue (are_listed g.now.width g.now.height cells.now) }
    ensures { result ≡ first_failing g.now (spec.leaves cells.now) }
{
    let heights = Heights::Members {
        rest: cells.as_slice(),
    };
    let hills = Hills { grid: g, heights };
    hills.first_climb()
}

// The potential of a cell: its value, if it is listed, else the cost less the estimate.
fn potential(cost: Cost, goal: Cell, values: &Costs, c: Cell) -> Signed
    ensures { result ≡ potentials.potential_of cost goal values.now c }
{
    for (cell, value) in values.as_slice() {
        if *cell == c {
            return value.signed();
        }
    }
    cost.minus(estimate(c, goal))
}

// Whether the cell is listed.
fn is_listed(cells: &Cells, c: Cell) -> bool
    ensures { result ≡ potentials.is_listed cells.now c }
{
    cells.as_slice().iter().any(|cell| *cell == c)
}

// Whether the value is this cost.
fn is_value(s: Signed, c: Cost) -> bool
    ensures { result ≡ spec.is_value s c }
{
    s == c.signed()
}

// The number that tells that the points are no walk from start to goal of this cost, if they aren't.
fn bad_point(g: &Grid, s: Cell, t: Cell, cost: Cost, points: &Points) -> Option<u32>
    requires { length points.now < 2 ^ 30 }
    ensures { result ≡ bad_number cost (length points.now) (walk_answer g.now s t points.now) }
{
    match walk_between(g, s, t, points) {
        Err(bad) => Some(bad),
        Ok(paid) => {
            if paid == cost {
                None
            } else {
                Some(points.as_slice().len() as u32)
            }
        }
    }
}
