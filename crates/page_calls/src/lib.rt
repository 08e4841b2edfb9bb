//! The program over bytes that are handed over, for a page or a script in JavaScript.
//!
//! A host calls [`jps_answer`] with words, texts under names and an input, and with room for what is printed.
#![tactic(auto)]

ghost use Rattle.std.specs.Prelude.{◌≡◌, ◌≤◌, ◌⊎◌};
ghost use Rattle.page_calls.specs.Handed.{AreTexts, texts_in, words_in};
ghost use Rattle.page_calls.specs.Answers.{Answers, IsPrinted, IsForMemory};

mod answer;
mod growing;
mod handed;

use answer::{answer_of, put};
use std::alloc::Global;

/// How many bytes were printed.
#[repr(C)]
#[derive(Drop)]
pub struct Printed {
    pub out: u64,
    pub err: u64,
}

/// Does what the words ask for, with the texts under their names as the files that there are, and answers the
/// status.
///
/// `words` and `names` are UTF-8, each of them ended by a byte 0. What is printed goes to the front of `out`
/// and of `err`, and `told` has how many bytes it is. Where that is more than there is room for, that room
/// stays as it is: the call is to be made again with as much. Statuses: those of `run` without 5,
/// as all is written.
#[unsafe(no_mangle)]
pub extern "C" fn jps_answer(
    alloc: Global,
    words: &[u8],
    names: &[u8],
    first: &[u8],
    second: &[u8],
    third: &[u8],
    input: &[u8],
    out: &mut [u8],
    err: &mut [u8],
    told: &mut Printed,
) -> u32
    ensures statuses { (result ≤ 4) ⊎ (result ≡ 6) }
    // The headline: what is printed and the status are those of an outcome of these words on these texts.
    ensures answers { result ≤ 4 → AreTexts (words_in words.now) → AreTexts (words_in names.now)
        → IsPrinted (Answers (words_in words.now)
        (texts_in (words_in names.now) first.now second.now third.now)
        input.now result) out.new err.new told.new }
    // For want of memory nothing is printed but its line.
    ensures memory { result ≡ 6 → IsPrinted IsForMemory out.new err.new told.new }
{
    match answer_of(alloc, words, names, first, second, third, input) {
        Ok(answer) => {
            told.out = put(answer.out.as_slice(), out);
            told.err = put(answer.err.as_slice(), err);
            answer.status as u32
        }
        Err(_) => {
            told.out = put(b"", out);
            told.err = put(b"jps: memory\n", err);
            6
        }
    }
}
