//! Reading a call from the words.

ghost use Rattle.std.specs.Prelude.{◌≡◌, ℕ, ◌≤◌, ◌∷◌, map, string_bytes, length, Some, IfOk, IfErr, IsOkAnd};
ghost use Rattle.std.specs.Prelude.{IsErrAnd, OnOk, MatchResult};
ghost use Rattle.word_list.specs.Request.{Call, IsSound, called};
ghost use Rattle.word_list.specs.Calls.{call_of, is_call};
ghost use Rattle.word_list.specs.Rule.{IsBadWord, StopsAt};
ghost use Rattle.word_list.specs.Steps.{AreOf};

use crate::request::{BadWord, Settings};
use crate::rows::{Request, WordKind, row_named};
use crate::settings::{chosen, serves, settled, table_file};

/// The call that the words spell, or the number of the word that no call has there.
pub fn read_words(words: &[String]) -> Result<(Request<'_>, Settings), BadWord>
    // What is read is spelled so.
    ensures found { IfOk result (λ read.
        call_of (map string_bytes words.now) ≡ Some (called read.0 read.1)) }
    // What is spelled so is read.
    ensures only { (call : Call) → call_of (map string_bytes words.now) ≡ Some call
        → IsOkAnd result (λ read. called read.0 read.1 ≡ call) }
    // A table file is named beside the engine that searches by tables alone.
    ensures sound { IfOk result (λ read. IsSound read.0 read.1) }
    // A refusal names the bad word.
    ensures refused { IfErr result (λ bad. IsBadWord is_call (map string_bytes words.now) bad.0) }
    // A list with a bad word is refused by its number.
    ensures named { (number : ℕ) → IsBadWord is_call (map string_bytes words.now) number
        → IsErrAnd result (λ bad. bad.0 ≡ number) }
{
    read(words)
}

/// The number of the first bad word where these words stand before one that no call has, as one that
/// is no text.
pub fn first_bad(words: &[String]) -> u32
    ensures { StopsAt is_call (map string_bytes words.now) result }
{
    match read(words) {
        Ok(_) => words.len() as u32 + 1,
        Err(bad) => bad.0,
    }
}

/// The call that the words spell, or the number of the bad word.
fn read(words: &[String]) -> Result<(Request<'_>, Settings), BadWord>
    ensures few { OnOk result (length words.now ≤ 14) }
    ensures sound { IfOk result (λ read. IsSound read.0 read.1) }
    ensures spelled { MatchResult result
        (λ read. call_of (map string_bytes words.now) ≡ Some (called read.0 read.1))
        (λ bad. IsBadWord is_call (map string_bytes words.now) bad.0) }
{
    match words {
        [name, words @ ..] => read_after(name.as_str(), words),
        _ => Err(BadWord(1)),
    }
}

/// The same of a command's name and the words after it.
fn read_after<'a>(name: &str, words: &'a [String]) -> Result<(Request<'a>, Settings), BadWord>
    ensures few { OnOk result (length words.now ≤ 13) }
    ensures sound { IfOk result (λ read. IsSound read.0 read.1) }
    ensures spelled { MatchResult result
        (λ read. call_of (name.now ∷ map string_bytes words.now) ≡ Some (called read.0 read.1))
        (λ bad. IsBadWord is_call (name.now ∷ map string_bytes words.now) bad.0) }
{
    let Some(row) = row_named(name) else {
        return Err(BadWord(1));
    };
    let taken = fitting(row.takes, words);
    if taken < row.takes.len() {
        return Err(BadWord(taken as u32 + 2));
    }
    let rest = &words[taken..];
    let more = settled(row.allows, rest);
    let tables = table_file(rest);
    let settings = chosen(row.command.engine(), rest);
    if more < rest.len() || !serves(settings.pick, rest) {
        return Err(BadWord((taken + more) as u32 + 2));
    }
    let request = Request {
        command: row.command,
        words: &words[..taken],
        tables,
    };
    Ok((request, settings))
}

/// How many of the words are of these kinds, one after the other.
fn fitting(takes: &[WordKind], words: &[String]) -> usize
    ensures count { AreOf takes.now (map string_bytes words.now) result }
    ensures within { result ≤ length words.now }
{
    for (place, kind) in takes.iter().enumerate() {
        if !kind.is_at(words, place) {
            return place;
        }
    }
    takes.len()
}
