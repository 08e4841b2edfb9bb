//! Which of the legal moves from a cell are worth an offer.
//!
//! A neighbour that the parent leads to at no greater cost than the way over the cell was offered
//! before, and a second offer changes nothing. So after a straight move three moves are left where
//! nothing is blocked beside it, and after a diagonal one five:
//!
//! ```text
//! . . o     o o o
//! p x o     . x o
//! . . o     p . o
//! ```
//!
//! After a straight move, a side is left out only where the cell behind it is seen to be free.

ghost use Rattle.std.specs.Prelude.{◌≡◌, ◌&&◌, ◌||◌, not};
ghost use Rattle.plain_search.specs.Offers.{sides_of, less_offered};

use grid_moves::{Around, Dir};

/// On which sides of a cell its parent lies; on none for a start.
#[derive(Clone, Copy)]
pub(crate) struct Behind {
    pub(crate) left: bool,
    pub(crate) right: bool,
    pub(crate) above: bool,
    pub(crate) below: bool,
}

impl Behind {
    /// The sides where the parent lies, given the direction of the move from it.
    #[inline(always)]
    pub(crate) fn of(arrival: Option<Dir>) -> Behind
        ensures { result ≡ sides_of arrival }
    {
        let (left, right) = match arrival {
            Some(Dir::NE | Dir::E | Dir::SE) => (true, false),
            Some(Dir::SW | Dir::W | Dir::NW) => (false, true),
            Some(Dir::N | Dir::S) | None => (false, false),
        };
        let (above, below) = match arrival {
            Some(Dir::SE | Dir::S | Dir::SW) => (true, false),
            Some(Dir::N | Dir::NE | Dir::NW) => (false, true),
            Some(Dir::E | Dir::W) | None => (false, false),
        };
        Behind {
            left,
            right,
            above,
            below,
        }
    }
}

// Whether a straight move is kept: it is legal, and leads away from the parent; or neither towards it
// nor to its side past a cell that is seen to be free.
#[inline(always)]
fn is_kept(legal: bool, away: bool, toward: bool, beside: bool, beyond: bool) -> bool
    ensures { result ≡ (legal && (away || not (toward || beside || beyond))) }
{
    legal & (away | !(toward | beside | beyond))
}

// Whether the parent lies on this side and the diagonal move on that side is legal.
#[inline(always)]
fn is_passed(side: bool, legal: bool) -> bool
    ensures { result ≡ (side && legal) }
{
    side & legal
}

// Whether a diagonal move is kept: it is legal, and leads away from the parent, by column or by row, or
// not towards it.
#[inline(always)]
fn is_kept_diagonal(legal: bool, by_column: bool, by_row: bool, column: bool, row: bool) -> bool
    ensures { result ≡ (legal && (by_column || by_row || not (column || row))) }
{
    legal & (by_column | by_row | !(column | row))
}

/// The legal moves less those that the parent, on these sides, has offered.
#[inline(always)]
pub(crate) fn less_offered(a: Around, p: Behind) -> Around
    ensures { result ≡ less_offered a p }
{
    let (l, r) = (p.left, p.right);
    Around {
        n: is_kept(
            a.n,
            p.below,
            p.above,
            is_passed(l, a.nw),
            is_passed(r, a.ne),
        ),
        ne: is_kept_diagonal(a.ne, l, p.below, r, p.above),
        e: is_kept(
            a.e,
            l,
            r,
            is_passed(p.above, a.ne),
            is_passed(p.below, a.se),
        ),
        se: is_kept_diagonal(a.se, l, p.above, r, p.below),
        s: is_kept(
            a.s,
            p.above,
            p.below,
            is_passed(l, a.sw),
            is_passed(r, a.se),
        ),
        sw: is_kept_diagonal(a.sw, r, p.above, l, p.below),
        w: is_kept(
            a.w,
            r,
            l,
            is_passed(p.above, a.nw),
            is_passed(p.below, a.sw),
        ),
        nw: is_kept_diagonal(a.nw, r, p.below, l, p.above),
        ..a
    }
}
