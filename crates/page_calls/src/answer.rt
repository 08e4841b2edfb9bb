//! The answer to a call.

ghost use Rattle.std.specs.Prelude.{◌≡◌, ◌<◌, ◌≤◌, map, take, length, string_bytes, IfOk};
ghost use Rattle.page_calls.specs.Handed.{AreTexts, texts_in, words_in};
ghost use Rattle.page_calls.specs.Answers.{Answers, whole};

use crate::growing::Growing;
use crate::handed::{files_of, words_of};
use io_edge::{MemFiles, NoMemory, SureSource};
use jps_run::{refuse, run};
use std::alloc::Global;
use std::marker::Brand;
use std::sync::ledger::{Blank, Ledger};
use steps::Steps;

/// The status and what is printed.
#[derive(Drop)]
pub struct Answer {
    pub status: u8,
    pub out: Vec<u8>,
    pub err: Vec<u8>,
}

// The answer, where all that was printed found memory.
fn settle(status: u8, out: Growing, err: Growing) -> Result<Answer, NoMemory>
    ensures status { IfOk result (λ answer. (answer.status ≡ status) × (status ≤ 4)) }
    ensures out { IfOk result (λ answer. out ≡ whole answer.out.items) }
    ensures err { IfOk result (λ answer. err ≡ whole answer.err.items) }
{
    if status > 4 {
        return Err(NoMemory);
    }
    let out = out.into_bytes()?;
    let err = err.into_bytes()?;
    Ok(Answer { status, out, err })
}

// Runs the words, and counts on a new counter.
fn start<L: Ledger>(
    alloc: Global,
    words: &[String],
    files: &mut MemFiles,
    input: &mut SureSource,
    blank: Blank,
) -> Result<Answer, NoMemory>
    requires name { blank.name ≡ L.name }
    requires parts { blank.parts ≡ L.parts }
    requires some { 0 < L.parts }
    ensures few { IfOk result (λ answer. answer.status ≤ 4) }
    ensures answers { IfOk result (λ answer. Answers (map string_bytes words.now) files.old.files input.old
        answer.status answer.out.items answer.err.items) }
{
    let mut steps = Steps::<L>::new(blank);
    let mut out = Growing::new(alloc);
    let mut err = Growing::new(alloc);
    let status = run(alloc, words, files, input, &mut out, &mut err, &mut steps);
    settle(status, out, err)
}

// Refuses words of which some are no text.
fn refused(alloc: Global, before: &[String]) -> Result<Answer, NoMemory>
    ensures { IfOk result (λ answer. answer.status ≤ 4) }
{
    let mut err = Growing::new(alloc);
    let status = refuse(alloc, before, &mut err);
    settle(status, Growing::new(alloc), err)
}

/// The answer to these words, with the texts under their names as the files that there are.
pub fn answer_of(
    alloc: Global,
    words: &[u8],
    names: &[u8],
    first: &[u8],
    second: &[u8],
    third: &[u8],
    input: &[u8],
) -> Result<Answer, NoMemory>
    ensures few { IfOk result (λ answer. answer.status ≤ 4) }
    ensures answers { IfOk result (λ answer. AreTexts (words_in words.now) → AreTexts (words_in names.now)
        → Answers (words_in words.now)
        (texts_in (words_in names.now) first.now second.now third.now) input.now
        answer.status answer.out.items answer.err.items) }
{
    let names = words_of(alloc, names)?;
    let files = files_of(alloc, names.words.as_slice(), first, second, third)?;
    let mut files = MemFiles::new(files, usize::MAX, Vec::new(alloc));
    let mut input = SureSource::new(Vec::from_slice(alloc, input)?);
    let words = words_of(alloc, words)?;
    if !words.are_all {
        return refused(alloc, words.words.as_slice());
    }
    start::<Brand>(
        alloc,
        words.words.as_slice(),
        &mut files,
        &mut input,
        Blank::new(1),
    )
}

/// Puts the bytes at the front of the room, if they fit there, and answers how many they are.
pub fn put(bytes: &[u8], room: &mut [u8]) -> u64
    ensures length { result ≡ length bytes.now }
    ensures front { length bytes.now ≤ length room.old → take (length bytes.now) room.new ≡ bytes.now }
    ensures room { length room.new ≡ length room.old }
{
    if bytes.len() <= room.len() {
        room[..bytes.len()].copy_from_slice(bytes);
    }
    bytes.len() as u64
}
