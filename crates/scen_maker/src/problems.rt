//! Problems from a number, as a scenario.

ghost use Rattle.std.specs.Prelude.{◌≡◌, ◌<◌, ◌++◌, IfOk, OnOk, map};
ghost use Rattle.std.specs.List.{All};
ghost use Rattle.grid_moves.specs.Layers.{AreLayers};
ghost use Rattle.joined_cells.specs.Both.{HasWalk};
ghost use Rattle.scen_maker.specs.Problems as spec;

use crate::NoMemory;
use crate::costs::LeastCosts;
use grid_moves::{Ends, Layers, Terrain};
use line_work::Printed;
use problem_maker::{Problem, make_ends, order};
use scen_lines::{problem_name, put_entry, put_version};
use std::alloc::Global;
use std::marker::Brand;
use std::sync::ledger::{Blank, Ledger};
use steps::Steps;

// The problem between ends that a walk joins, with its least cost.
fn price<L: Ledger>(
    alloc: Global,
    costs: &mut LeastCosts,
    ends: Ends,
    steps: &mut Steps<L>,
) -> Result<Problem, NoMemory>
    requires layers { AreLayers costs.old }
    requires walk { HasWalk costs.old ends.from ends.to }
    ensures priced { IfOk result (λ problem. problem ≡ spec.priced costs.old ends) }
    ensures unchanged { costs.new ≡ costs.old }
{
    match costs.between(alloc, ends.from, ends.to, steps)? {
        Some(cost) => Ok(Problem { ends, cost }),
        None => unreachable!(),
    }
}

// The same for all of these ends, in their order.
fn price_all<L: Ledger>(
    alloc: Global,
    costs: &mut LeastCosts,
    kept: &[Ends],
    steps: &mut Steps<L>,
) -> Result<Vec<Problem>, NoMemory>
    requires layers { AreLayers costs.old }
    requires walks { All (λ ends. HasWalk costs.old ends.from ends.to) kept.now }
    ensures priced { IfOk result (λ problems. problems.items ≡ map (spec.priced costs.old) kept.now) }
    ensures unchanged { costs.new ≡ costs.old }
{
    let mut problems = Vec::with_capacity(alloc, kept.len())?;
    for ends in kept {
        let problem = price(alloc, costs, *ends, steps)?;
        problems.push(problem)?;
    }
    Ok(problems)
}

// The same by a counter of its own.
fn price_alone<L: Ledger>(
    alloc: Global,
    costs: &mut LeastCosts,
    kept: &[Ends],
    blank: Blank,
) -> Result<Vec<Problem>, NoMemory>
    requires name { blank.name ≡ L.name }
    requires parts { blank.parts ≡ L.parts }
    requires some { 0 < L.parts }
    requires layers { AreLayers costs.old }
    requires walks { All (λ ends. HasWalk costs.old ends.from ends.to) kept.now }
    ensures priced { IfOk result (λ problems. problems.items ≡ map (spec.priced costs.old) kept.now) }
    ensures unchanged { costs.new ≡ costs.old }
{
    let mut steps = Steps::<L>::new(blank);
    price_all(alloc, costs, kept, &mut steps)
}

// The query of a problem on a map.
fn query_of(layers: &Layers, problem: Problem) -> scen_lines::Problem
    ensures { result ≡ spec.query_of layers.now problem }
{
    scen_lines::Problem {
        w: u32::from(layers.land().width()),
        h: u32::from(layers.land().height()),
        sx: u32::from(problem.ends.from.x),
        sy: u32::from(problem.ends.from.y),
        gx: u32::from(problem.ends.to.x),
        gy: u32::from(problem.ends.to.y),
    }
}

// Appends the line of a problem on the map of this name.
fn put_problem(
    out: &mut Vec<u8>,
    layers: &Layers,
    name: &[u8],
    problem: Problem,
) -> Result<(), NoMemory>
    ensures { OnOk result (out.new.items ≡ out.old.items ++ spec.line_on layers.now name.now problem) }
{
    let listed = query_of(layers, problem).with_cost(problem.cost);
    put_entry(out, name, listed)
}

// The scenario of problems on the map of this name, in their order.
fn scenario_text(
    alloc: Global,
    layers: &Layers,
    name: &[u8],
    problems: &[Problem],
) -> Result<Vec<u8>, NoMemory>
    ensures { IfOk result (λ text. text.items ≡ spec.scenario_on layers.now name.now problems.now) }
{
    let mut text = Vec::new(alloc);
    put_version(&mut text)?;
    for problem in problems {
        put_problem(&mut text, layers, name, *problem)?;
    }
    Ok(text)
}

/// The scenario of `count` problems from a seed, and its status, which is 1 where so many were not found.
///
/// `word` names the map's file. A problem costs a search; what no walk joins costs none.
pub fn problems_text(
    alloc: Global,
    costs: &mut LeastCosts,
    word: &[u8],
    seed: u64,
    count: u32,
) -> Result<Printed, NoMemory>
    ensures text { IfOk result (λ p. p.text.items ≡ spec.problems_text costs.old word.now seed count) }
    ensures status { IfOk result (λ p. p.status ≡ spec.problems_status costs.old seed count) }
{
    let kept = make_ends(alloc, costs.layers(), seed, count)?;
    let status = if kept.len() == count as usize { 0 } else { 1 };
    let mut problems = price_alone::<Brand>(alloc, costs, kept.as_slice(), Blank::new(1))?;
    order(&mut problems)?;
    let name = problem_name(alloc, word)?;
    let text = scenario_text(alloc, costs.layers(), name.as_slice(), problems.as_slice())?;
    Ok(Printed { text, status })
}
