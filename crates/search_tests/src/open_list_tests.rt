//! An open list over whole numbers, by hand and beside a plain scan, and how often it asks for the order.

ghost use Rattle.std.specs.Prelude.{◌≡◌, ◌<◌, length, nat_lt};
ghost use Rattle.std.proofs.Common.{arith};
ghost use Rattle.std.proofs.lemmas.Bool.Decides.{nat_tests};

use open_list::{NoMemory, Pool, Ranked, Steps};
use std::alloc::Global;
use std::cell::Cell;
use std::marker::Brand;
use std::sync::ledger::{Blank, Ledger};

/// A whole number, of which the smaller is taken first.
#[derive(Clone, Copy)]
struct Number(u32);

impl Ranked for Number {
    ghost before = { λ a b. nat_lt (a.0) (b.0) };

    fn before(&self, other: &Number) -> bool {
        self.0 < other.0
    }

    ghost order = { record {
      not_before_itself = λ a. Prim.grind (arith, nat_tests);
      before_is_transitive = λ a b c x y. Prim.grind (arith, nat_tests);
      not_before_is_transitive = λ a b c x y. Prim.grind (arith, nat_tests);
    } };
}

// Lowers an open node to a number that is not larger, and says whether it did.
fn lowers<L: Ledger>(pool: &mut Pool<Number>, id: u32, to: u32, steps: &mut Steps<L>) -> bool
    requires known { id < length pool.old.nodes }
{
    if !pool.is_open(id) || pool.node(id).0 < to {
        return false;
    }
    pool.lower(id, Number(to), steps);
    true
}

#[derive(Debug, Drop, PartialEq)]
struct Answers {
    numbers: [u32; 3],
    lowered: bool,
    first: [Option<u32>; 4],
}

fn three_numbers<L: Ledger>(alloc: Global, blank: Blank) -> Result<Answers, NoMemory>
    requires name { blank.name ≡ L.name }
    requires parts { blank.parts ≡ L.parts }
    requires some { 0 < L.parts }
{
    let mut steps = Steps::<L>::new(blank);
    let mut pool = Pool::new(alloc);
    pool.reserve(3)?;
    let five = pool.add(Number(5), &mut steps);
    let seven = pool.add(Number(7), &mut steps);
    let nine = pool.add(Number(9), &mut steps);
    let lowered = lowers(&mut pool, nine, 4, &mut steps);
    let a = pool.pop(&mut steps);
    let b = pool.pop(&mut steps);
    let c = pool.pop(&mut steps);
    let d = pool.pop(&mut steps);
    Ok(Answers {
        numbers: [five, seven, nine],
        lowered,
        first: [a, b, c, d],
    })
}

// By hand: 9 goes to 4, which is then the smallest.
#[test]
fn a_lowered_number_comes_first(rt: HostRuntime) {
    let answers = three_numbers::<Brand>(rt.alloc(), Blank::new(1));
    let expected = Answers {
        numbers: [0, 1, 2],
        lowered: true,
        first: [Some(2), Some(0), Some(1), None],
    };
    assert_eq!(rt; answers, Ok(expected));
}

/// An open list as a plain list: the number of each node, or `None` once it is closed.
type Plain = Vec<Option<u32>>;

fn smallest(plain: &Plain) -> Option<u32> {
    let mut least = None;
    for number in plain {
        least = match (least, *number) {
            (Some(a), Some(b)) if b < a => Some(b),
            (None, b) => b,
            (a, _) => a,
        };
    }
    least
}

fn next_word(state: &mut u64) -> u32 {
    *state = state
        .wrapping_mul(6364136223846793005)
        .wrapping_add(1442695040888963407);
    (*state >> 33) as u32
}

// Each of these makes one call on both lists, and says whether they agree.
fn add_to_both<L: Ledger>(
    pool: &mut Pool<Number>,
    plain: &mut Plain,
    number: u32,
    steps: &mut Steps<L>,
) -> Result<bool, NoMemory> {
    if pool.len() >= 5000 {
        return Ok(false);
    }
    pool.reserve(1)?;
    let id = pool.add(Number(number), steps);
    let agree = id as usize == plain.len();
    plain.push(Some(number))?;
    Ok(agree)
}

fn lower_in_both<L: Ledger>(
    pool: &mut Pool<Number>,
    plain: &mut Plain,
    id: u32,
    number: u32,
    steps: &mut Steps<L>,
) -> bool {
    if id as usize >= plain.len() || id >= pool.len() {
        return plain.len() == pool.len() as usize;
    }
    let lower = match plain[id as usize] {
        Some(old) => number <= old,
        None => false,
    };
    if lower {
        plain[id as usize] = Some(number);
    }
    lowers(pool, id, number, steps) == lower
}

fn pop_from_both<L: Ledger>(
    pool: &mut Pool<Number>,
    plain: &mut Plain,
    steps: &mut Steps<L>,
) -> bool {
    let least = smallest(plain);
    match pool.pop(steps) {
        None => least.is_none(),
        Some(id) if (id as usize) < plain.len() && id < pool.len() => {
            let was = plain[id as usize];
            plain[id as usize] = None;
            was.is_some() && was == least && !pool.is_open(id)
        }
        Some(_) => false,
    }
}

// The first of so many calls, from an empty list on, at which the two do not agree.
fn first_difference<L: Ledger>(
    pool: &mut Pool<Number>,
    plain: &mut Plain,
    calls: u32,
    state: &mut u64,
    steps: &mut Steps<L>,
) -> Result<Option<u32>, NoMemory> {
    pool.clear();
    plain.clear();
    for call in 0..calls {
        let word = next_word(state);
        let number = word / 8 % 100;
        let agree = match word % 8 {
            0..=2 => add_to_both(pool, plain, number, steps)?,
            3..=5 => lower_in_both(pool, plain, next_word(state) % 1000, number, steps),
            _ => pop_from_both(pool, plain, steps),
        };
        if !agree {
            return Ok(Some(call));
        }
    }
    Ok(None)
}

fn two_rounds<L: Ledger>(
    alloc: Global,
    calls: u32,
    blank: Blank,
) -> Result<[Option<u32>; 2], NoMemory>
    requires name { blank.name ≡ L.name }
    requires parts { blank.parts ≡ L.parts }
    requires some { 0 < L.parts }
{
    let mut steps = Steps::<L>::new(blank);
    let mut pool = Pool::new(alloc);
    let mut plain = Vec::new(alloc);
    let mut state = 1;
    let one = first_difference(&mut pool, &mut plain, calls, &mut state, &mut steps)?;
    let other = first_difference(&mut pool, &mut plain, calls, &mut state, &mut steps)?;
    Ok([one, other])
}

// A plain scan finds the smallest number at each of some thousand calls, in a new pool and after
// `clear`.
#[test]
fn a_plain_scan_agrees(rt: HostRuntime) {
    let answers = two_rounds::<Brand>(rt.alloc(), 4000, Blank::new(1));
    assert_eq!(rt; answers, Ok([None, None]));
}

/// A whole number that counts in a cell how often it is asked whether it is before another.
#[derive(Clone, Copy)]
struct Counting<'a> {
    number: u32,
    asked: &'a Cell<u64>,
}

impl<'a> Ranked for Counting<'a> {
    ghost before = { λ a b. nat_lt a.number b.number };

    fn before(&self, other: &Counting<'a>) -> bool {
        self.asked.set(self.asked.get().saturating_add(1));
        self.number < other.number
    }

    ghost order = { record {
      not_before_itself = λ a. Prim.grind (arith, nat_tests);
      before_is_transitive = λ a b c x y. Prim.grind (arith, nat_tests);
      not_before_is_transitive = λ a b c x y. Prim.grind (arith, nat_tests);
    } };
}

/// One call on an open list.
#[derive(Clone, Copy)]
enum Call {
    Add(u32),
    Lower { id: u32, to: u32 },
    Pop,
}

// Lowers an open node to a number that is not larger; else it does nothing.
fn lower_counting<'a, L: Ledger>(
    pool: &mut Pool<Counting<'a>>,
    id: u32,
    node: Counting<'a>,
    steps: &mut Steps<L>,
) {
    if id < pool.len() && pool.is_open(id) && node.number <= pool.node(id).number {
        pool.lower(id, node, steps);
    }
}

// Makes the call, and tells how often the order was asked for.
fn asks_of<'a, L: Ledger>(
    pool: &mut Pool<Counting<'a>>,
    call: Call,
    asked: &'a Cell<u64>,
    steps: &mut Steps<L>,
) -> Result<u64, NoMemory> {
    asked.set(0);
    match call {
        Call::Add(number) => {
            if pool.len() < 5000 {
                pool.reserve(1)?;
                pool.add(Counting { number, asked }, steps);
            }
        }
        Call::Lower { id, to } => lower_counting(pool, id, Counting { number: to, asked }, steps),
        Call::Pop => {
            pool.pop(steps);
        }
    }
    Ok(asked.get())
}

fn asks_of_all<L: Ledger>(
    alloc: Global,
    calls: &[Call; 8],
    blank: Blank,
) -> Result<[u64; 8], NoMemory>
    requires name { blank.name ≡ L.name }
    requires parts { blank.parts ≡ L.parts }
    requires some { 0 < L.parts }
{
    let mut steps = Steps::<L>::new(blank);
    let asked = Cell::new(0);
    let mut pool = Pool::new(alloc);
    let mut counts = [0; 8];
    for (i, call) in calls.iter().enumerate() {
        counts[i] = asks_of(&mut pool, *call, &asked, &mut steps)?;
    }
    Ok(counts)
}

// By hand: 5 finds no other node, 7 and 9 are joined with it. Where 9 goes to 4 it is cut out and joined with
// 5, its root; as the root it goes to 3 unasked. Each node that is taken then has one child or none.
#[test]
fn adding_and_lowering_ask_once(rt: HostRuntime) {
    let calls = [
        Call::Add(5),
        Call::Add(7),
        Call::Add(9),
        Call::Lower { id: 2, to: 4 },
        Call::Lower { id: 2, to: 3 },
        Call::Pop,
        Call::Pop,
        Call::Pop,
    ];
    let counts = asks_of_all::<Brand>(rt.alloc(), &calls, Blank::new(1));
    assert_eq!(rt; counts, Ok([0, 1, 1, 1, 0, 0, 0, 0]));
}

// By hand: 2 to 5 become the children of 1. Their four trees are made one by three comparisons: 5 with 4, 3
// with 2, then 4 with 2, which is left with 4 and 3 below it.
#[test]
fn taking_asks_once_less_than_there_are_children(rt: HostRuntime) {
    let calls = [
        Call::Add(1),
        Call::Add(2),
        Call::Add(3),
        Call::Add(4),
        Call::Add(5),
        Call::Pop,
        Call::Pop,
        Call::Pop,
    ];
    let counts = asks_of_all::<Brand>(rt.alloc(), &calls, Blank::new(1));
    assert_eq!(rt; counts, Ok([0, 1, 1, 1, 1, 3, 1, 0]));
}

// How often one call of `add` and one of `lower` asked at most, over so many made-up calls.
fn most_asks<L: Ledger>(alloc: Global, calls: u32, blank: Blank) -> Result<[u64; 2], NoMemory>
    requires name { blank.name ≡ L.name }
    requires parts { blank.parts ≡ L.parts }
    requires some { 0 < L.parts }
{
    let mut steps = Steps::<L>::new(blank);
    let asked = Cell::new(0);
    let mut pool = Pool::new(alloc);
    let mut state = 1;
    let mut adding = 0;
    let mut lowering = 0;
    for _call in 0..calls {
        let word = next_word(&mut state);
        let number = word / 8 % 100;
        match word % 8 {
            0..=2 => {
                let count = asks_of(&mut pool, Call::Add(number), &asked, &mut steps)?;
                adding = count.max(adding);
            }
            3..=5 => {
                let call = Call::Lower {
                    id: next_word(&mut state) % 1000,
                    to: number,
                };
                let count = asks_of(&mut pool, call, &asked, &mut steps)?;
                lowering = count.max(lowering);
            }
            _ => {
                asks_of(&mut pool, Call::Pop, &asked, &mut steps)?;
            }
        }
    }
    Ok([adding, lowering])
}

// What `add` and `lower` promise: the order is asked for at most once.
#[test]
fn no_adding_or_lowering_asks_twice(rt: HostRuntime) {
    let most = most_asks::<Brand>(rt.alloc(), 4000, Blank::new(1));
    assert_eq!(rt; most, Ok([1, 1]));
}
