//! Lists of directions in one word, which stays in a register.

ghost use Rattle.std.specs.Prelude.{◌≡◌, ◌+◌, ◌*◌, ◌<◌, ◌≤◌, ◌^◌, [], ◌∷◌, List, length, IfNone, IfSome};
ghost use Rattle.pruning.specs.Packed.{word_of};

use arrayvec::ArrayVec;
use grid_moves::{ALL_DIRS, Dir, dir_number};
use std::marker::Model;

/// At most eight directions in one word. Contracts see their list.
#[derive(Clone, Copy, Debug)]
pub struct Packed {
    // The lowest four bits have the first direction's number and one, those above them the others.
    word: u32,
}

impl Model for Packed {
    ghost use Rattle.std.specs.Prelude.{◌≡◌, List};
    ghost use Rattle.std.proofs.Common.{sym};
    ghost use Rattle.grid_moves.specs.declared.Dir.{Dir};

    ghost Value = { List Dir };

    ghost use Rattle.pruning.specs.Packed.{word_of, dirs_of};

    ghost view = { λ p. dirs_of 8 p.word };

    ghost invariant = { λ p. p.word ≡ word_of (dirs_of 8 p.word) };

    ghost inverse = { λ ds. record { word = word_of ds } };

    ghost inverse_ok = { λ p h i. record { word = sym h i } };
}

/// The first direction and the others.
#[derive(Clone, Copy, Debug)]
pub struct Split {
    pub first: Dir,
    pub others: Packed,
}

// The directions in their order. A `static` is read where it lies; a constant would be laid on the stack at
// each use.
static DIRS: [Dir; 8] = ALL_DIRS;

// The word of a direction and of those after it.
#[inline(always)]
fn put_first(d: Dir, others: u32) -> u32
    requires room { others < 2 ^ 28 }
    ensures word { (ds : List Dir) → others ≡ word_of ds → result ≡ word_of (d ∷ ds) }
{
    others * 16 + (u32::from(dir_number(d)) + 1)
}

// The first direction of a word.
#[inline(always)]
fn first_of(word: u32) -> Dir
    requires { (d : Dir) × (ds : List Dir) × (word ≡ word_of (d ∷ ds)) }
    ensures { (d : Dir) (ds : List Dir) → word ≡ word_of (d ∷ ds) → result ≡ d }
{
    DIRS[(word % 16) as usize - 1]
}

impl Packed {
    /// No direction.
    #[inline(always)]
    pub fn new() -> Packed
        ensures { result ≡ [] }
    {
        Packed { word: 0 }
    }

    /// A direction and these after it.
    #[inline(always)]
    pub(crate) fn after(self, d: Dir) -> Packed
        requires room { length self < 8 }
        ensures { result ≡ d ∷ self }
    {
        Packed {
            word: put_first(d, self.word),
        }
    }

    /// The first direction and the others, or `None` where there are none.
    #[inline(always)]
    pub fn split(self) -> Option<Split>
        ensures few { length self ≤ 8 }
        ensures none { IfNone result (self ≡ []) }
        ensures some { IfSome result (λ s. self ≡ s.first ∷ s.others) }
    {
        if self.word == 0 {
            return None;
        }
        Some(Split {
            first: first_of(self.word),
            others: Packed {
                word: self.word / 16,
            },
        })
    }

    /// The directions in a list of their own.
    #[inline(always)]
    pub fn to_list(self) -> ArrayVec<Dir, 8>
        ensures { result.items ≡ self }
    {
        let _at_most_eight = &self.word;
        let mut found = ArrayVec::new();
        let mut left = self;
        'left: while let Some(s) = left.split() {
            found.push(s.first);
            left = s.others;
        }
        found
    }
}
