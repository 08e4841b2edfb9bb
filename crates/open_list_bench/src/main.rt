//! A measure of the open list: a million nodes enter, are lowered and leave, as in a search.
//!
//! Each turn takes the first open node, and then offers up to eight times: a node from the pool that is
//! still open and comes after the offer is lowered to it, and else a new node is added. The numbers
//! are those of a fixed generator, and `bench/open_list/binary_heap.cpp` does the same turns with
//! an indexed binary heap. What is printed is a sum over all answers, equal in both programs.
//!
//! Words: how many rounds (1), and how many offers a turn makes (8).
#![tactic(auto)]

ghost use Rattle.std.specs.Prelude.{◌≡◌, ◌+◌, ◌<◌, ◌≤◌};
ghost use Rattle.open_list_bench.specs.Before.{is_before, is_before-order};

use open_list::{NoMemory, Pool, Ranked, Steps};
use std::alloc::Global;
use std::marker::Brand;
use std::sync::ledger::{Blank, Ledger};
use std::{env, io};

/// How many nodes enter in one round.
const NODES: u32 = 1_000_000;

/// A node of 28 bytes, which makes an entry of 40.
#[derive(Clone, Copy)]
struct Node {
    sum: u32,
    tie: u32,
    cost: u32,
    estimate: u32,
    state: u32,
    parent: u32,
    turn: u32,
}

impl Ranked for Node {
    ghost before = { is_before };

    fn before(&self, other: &Node) -> bool {
        self.sum < other.sum || self.sum == other.sum && self.tie < other.tie
    }

    ghost order = { is_before-order };
}

fn next_word(state: &mut u64) -> u32 {
    let x = state
        .wrapping_mul(6364136223846793005)
        .wrapping_add(1442695040888963407);
    *state = x;
    (x >> 33) as u32
}

// Lowers a known node or adds a new one, at a sum of up to 999 above `from`.
fn offer<L: Ledger>(
    pool: &mut Pool<Node>,
    from: &Node,
    turn: u32,
    state: &mut u64,
    steps: &mut Steps<L>,
) -> Result<(), NoMemory> {
    let word = next_word(state);
    let sum = from.sum.wrapping_add(word % 1000);
    let len = pool.len();
    let node = Node {
        sum,
        tie: turn,
        cost: word,
        estimate: 0,
        state: len,
        parent: from.state,
        turn,
    };
    if word % 4 == 0 && len > 0 {
        let id = next_word(state) % len;
        if pool.is_open(id) && !pool.node(id).before(&node) {
            pool.lower(id, node, steps);
        }
        return Ok(());
    }
    if len < NODES {
        pool.reserve(1)?;
        pool.add(node, steps);
    }
    Ok(())
}

fn round<L: Ledger>(
    pool: &mut Pool<Node>,
    offers: u32,
    state: &mut u64,
    steps: &mut Steps<L>,
) -> Result<u64, NoMemory>
    requires few { offers ≤ 8 }
{
    pool.clear();
    let start = Node {
        sum: 0,
        tie: 0,
        cost: 0,
        estimate: 0,
        state: 0,
        parent: 0,
        turn: 0,
    };
    pool.reserve(1)?;
    pool.add(start, steps);
    let mut total = 0u64;
    for turn in 0..NODES {
        let Some(id) = pool.pop(steps) else {
            break;
        };
        let node = *pool.node(id);
        total = total.wrapping_mul(31).wrapping_add(u64::from(id));
        for k in 0..offers {
            offer(pool, &node, 8 * turn + k, state, steps)?;
        }
    }
    Ok(total)
}

fn rounds<L: Ledger>(alloc: Global, count: u32, offers: u32, blank: Blank) -> Result<u64, NoMemory>
    requires few { offers ≤ 8 }
    requires name { blank.name ≡ L.name }
    requires parts { blank.parts ≡ L.parts }
    requires some { 0 < L.parts }
{
    let mut steps = Steps::<L>::new(blank);
    let mut pool = Pool::new(alloc);
    let mut state = 1u64;
    let mut total = 0u64;
    for _ in 0..count {
        total = total.wrapping_add(round(&mut pool, offers, &mut state, &mut steps)?);
    }
    Ok(total)
}

fn number_or(word: Option<String>, other: u32) -> u32 {
    match word {
        Some(word) => word.as_str().parse().unwrap_or(other),
        None => other,
    }
}

fn main(rt: HostRuntime) -> io::Result<()> {
    let mut words = env::args(&rt)?.skip(1);
    let count = number_or(words.next(), 1);
    let offers = number_or(words.next(), 8).min(8);
    match rounds::<Brand>(rt.alloc(), count, offers, Blank::new(1)) {
        Ok(total) => println!(rt; "{total}"),
        Err(_) => println!(rt; "no memory"),
    }
}
