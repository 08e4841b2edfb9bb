//! The searches of a session, each on one grid.

ghost use Rattle.std.specs.Prelude.{◌≡◌, ◌*◌, true, IfOk};
ghost use Rattle.grid_moves.specs.Grid.{is_free};
ghost use Rattle.plain_search.specs.Room.{HasRoom};
ghost use Rattle.pruning.specs.Source.{IsWithin};
ghost use Rattle.search_core.specs.Counting.{most_for_state};
ghost use Rattle.search_core.specs.Jumping.{HasPlaces};
ghost use Rattle.edit_replay.specs.Counting.{RoseByStates, RoseWithin, fewest_of, most_of, states_taken};
ghost use Rattle.edit_replay.specs.Kept.{IsFinderOn, engine_with};
ghost use Rattle.edit_replay.specs.Replies.{IsJumpReply, IsRightOn, IsRunOn};

use crate::kept::Finder;
use crate::{Engine, NoMemory, Reply};
use best_first::Space;
use grid_moves::{Cell, Grid, Terrain};
use jump_block::BlockJumps;
use jump_plain::PlainJumps;
use plain_search::{Found, Workspace, least_in};
use plus_tables::PlusJumps;
use pruning::JumpSource;
use search_core::search_in;
use std::alloc::Global;
use std::sync::ledger::Ledger;
use steps::Steps;

/// The plain engine's reply, between free cells.
pub(crate) fn search_plainly(
    alloc: Global,
    grid: &Grid,
    from: Cell,
    to: Cell,
    space: &mut Workspace,
) -> Result<Reply, NoMemory>
    requires from { is_free grid.now from ≡ true }
    requires to { is_free grid.now to ≡ true }
    requires room { HasRoom grid.now space.old }
    ensures right { IfOk result (IsRightOn grid.now from to) }
    ensures run { IfOk result (IsRunOn Engine.Plain grid.now from to) }
    ensures room { HasRoom grid.now space.new }
{
    let Found { walk, taken } = least_in(alloc, grid, from, to, space)?;
    Ok(Reply::found(walk, taken))
}

// The reply of an engine that jumps, between free cells, by a source of jumps on the grid. (The grid is a
// parameter for the contract alone.)
fn search_by_jumps<J: JumpSource, L: Ledger>(
    alloc: Global,
    _grid: &Grid,
    j: &J,
    from: Cell,
    to: Cell,
    space: &mut Space,
    steps: &mut Steps<L>,
) -> Result<Reply, NoMemory>
    requires stands { J.StandsFor j.now _grid.now }
    requires from { is_free _grid.now from ≡ true }
    requires to { is_free _grid.now to ≡ true }
    requires places { HasPlaces _grid.now space.old }
    ensures right { IfOk result (IsRightOn _grid.now from to) }
    ensures run { IfOk result (IsJumpReply space.old.layout _grid.now from to) }
    ensures most { IfOk result (λ reply. IsWithin (J.most j.now)
        (λ known. states_taken reply * most_for_state known) steps.old steps.new) }
    ensures fewest { IfOk result (RoseByStates (J.fewest j.now).allowed steps.old steps.new) }
    ensures layout { space.new.layout ≡ space.old.layout }
    ensures places { HasPlaces _grid.now space.new }
{
    // (by their clauses these are the sides of every grid that the source stands for, which is whole)
    let _sides = (j.width(), j.height());
    let Found { walk, taken } = search_in(alloc, j, from, to, space, steps)?;
    Ok(Reply::found(walk, taken))
}

/// The reply of the engine that finds jumps so, between free cells of a grid, which is that of water or of
/// land.
pub(crate) fn jump<L: Ledger>(
    alloc: Global,
    grid: &Grid,
    is_water: bool,
    finder: &Finder,
    from: Cell,
    to: Cell,
    space: &mut Space,
    steps: &mut Steps<L>,
) -> Result<Reply, NoMemory>
    requires from { is_free grid.now from ≡ true }
    requires to { is_free grid.now to ≡ true }
    requires finder { IsFinderOn is_water grid.now finder.now }
    requires places { HasPlaces grid.now space.old }
    ensures right { IfOk result (IsRightOn grid.now from to) }
    ensures run { IfOk result (IsJumpReply space.old.layout grid.now from to) }
    ensures most { IfOk result
        (RoseWithin (most_of (engine_with finder.now space.old.layout)) steps.old steps.new) }
    ensures fewest { IfOk result
        (RoseByStates (fewest_of (engine_with finder.now space.old.layout)) steps.old steps.new) }
    ensures layout { space.new.layout ≡ space.old.layout }
    ensures places { HasPlaces grid.now space.new }
{
    match finder {
        Finder::Cells => {
            let jumps = PlainJumps { terrain: grid };
            search_by_jumps(alloc, grid, &jumps, from, to, space, steps)
        }
        Finder::Bits(bits) => {
            let bits = bits.of(is_water);
            search_by_jumps(alloc, grid, &BlockJumps { bits }, from, to, space, steps)
        }
        Finder::Tables(tables) => {
            let tables = tables.of(is_water);
            search_by_jumps(alloc, grid, &PlusJumps { tables }, from, to, space, steps)
        }
    }
}
