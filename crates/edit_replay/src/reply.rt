//! What a query is answered.

ghost use Rattle.std.specs.Prelude.{◌≡◌};
ghost use Rattle.edit_replay.specs.Found.{reply_with, reply_without};

use grid_moves::Unsearched;
use path_points::{Points, Walk};
use plain_search::Taken;
use root2_cost::Cost;
use std::alloc::Global;

/// The reply to a query.
#[derive(Drop)]
pub enum Reply {
    /// Both ends are free: the points and the cost of a least walk, and the states that the search took.
    Walk {
        points: Points,
        cost: Cost,
        taken: Taken,
    },
    /// Both ends are free, and no walk exists; the states that the search took. Or the ends lie in
    /// different layers; then no state was taken.
    None {
        taken: Taken,
    },
    /// An end lies outside the map.
    Outside,
    /// Both ends lie inside, and one of them is blocked.
    Blocked,
}

impl Reply {
    /// The reply of a search between free cells, by what it found and the states that it took.
    pub fn found(walk: Option<Walk>, taken: Taken) -> Reply
        ensures { result ≡ reply_with walk taken }
    {
        match walk {
            Some(Walk { points, cost }) => Reply::Walk {
                points,
                cost,
                taken,
            },
            None => Reply::None { taken },
        }
    }

    /// The reply where nothing is searched.
    pub fn unsearched(alloc: Global, why: Unsearched) -> Reply
        ensures { result ≡ reply_without why }
    {
        match why {
            Unsearched::Outside => Reply::Outside,
            Unsearched::Blocked => Reply::Blocked,
            Unsearched::Apart(_) => Reply::None {
                taken: Taken::new(alloc),
            },
        }
    }
}

/// The reply to an edit.
#[derive(Clone, Copy, Debug, PartialEq, Eq)]
pub enum EditReply {
    /// The cell was changed.
    Done,
    /// The cell was already as asked.
    Same,
    /// The cell lies outside the map.
    Outside,
}
