//! The program's words, as the system hands them over: bytes, which need not be text.

use jps_run::NoMemory;
use std::alloc::Global;
use std::env::{Env, FillError};

/// Room for a word's bytes at first; twice as much each time that it does not fit.
const ROOM: usize = 256;

/// The program's words, without its own name.
#[derive(Drop)]
pub enum Words {
    /// All of them.
    Text(Vec<String>),
    /// Those before the first one that is not UTF-8.
    NoText(Vec<String>),
}

// The bytes of the word at this place, or none where the words have ended.
fn bytes_at<R: Env>(rt: &R, alloc: Global, place: usize) -> Result<Option<Vec<u8>>, NoMemory> {
    let mut room = ROOM;
    for _ in 0..usize::BITS {
        let mut bytes = Vec::new(alloc);
        bytes.resize(room, 0u8)?;
        match rt.arg(place, bytes.as_mut_slice()) {
            Ok(len) => {
                bytes.truncate(len);
                return Ok(Some(bytes));
            }
            Err(FillError::NotPresent) => return Ok(None),
            Err(FillError::TooLong) => room = room.saturating_mul(2),
        }
    }
    Err(NoMemory)
}

/// Reads the program's words.
pub fn words_of<R: Env>(rt: &R, alloc: Global) -> Result<Words, NoMemory> {
    let mut words = Vec::new(alloc);
    for place in 1..usize::MAX {
        let Some(bytes) = bytes_at(rt, alloc, place)? else {
            break;
        };
        match String::from_utf8(bytes) {
            Ok(word) => words.push(word)?,
            Err(_) => return Ok(Words::NoText(words)),
        }
    }
    Ok(Words::Text(words))
}

#[cfg(test)]
mod tests {
    use super::*;
    use std::process::Abort;
    use std::test::Fail;

    // A system that hands over these words.
    #[derive(Drop)]
    struct Handed<'a> {
        words: &'a [&'a [u8]],
    }

    impl<'a> Env for Handed<'a> {
        fn arg(&self, place: usize, buf: &mut [u8]) -> Result<usize, FillError> {
            let Some(word) = self.words.get(place) else {
                return Err(FillError::NotPresent);
            };
            if buf.len() < word.len() {
                return Err(FillError::TooLong);
            }
            buf[..word.len()].copy_from_slice(word);
            Ok(word.len())
        }

        fn var(&self, _name: &str, _buf: &mut [u8]) -> Result<usize, FillError> {
            Err(FillError::NotPresent)
        }

        fn var_at(&self, _place: usize, _buf: &mut [u8]) -> Result<usize, FillError> {
            Err(FillError::NotPresent)
        }
    }

    // The words that are handed over behind the program's name come out as these, all of them or those before
    // one that is no text.
    fn check_words(
        rt: &impl Abort,
        alloc: Global,
        handed: &[&[u8]],
        are_all: bool,
        given: &[&[u8]],
    ) -> Result<(), Fail> {
        let (is_text, words) = match words_of(&Handed { words: handed }, alloc)? {
            Words::Text(words) => (true, words),
            Words::NoText(words) => (false, words),
        };
        assert_eq!(rt; is_text, are_all);
        assert_eq!(rt; words.len(), given.len());
        for (word, bytes) in words.iter().zip(given) {
            assert_eq!(rt; word.as_bytes(), *bytes);
        }
        Ok(())
    }

    // No words; an empty one; one in letters of two bytes; and words before one that is no text,
    // the first one too.
    #[test]
    fn words_are_those_behind_the_name(rt: HostRuntime) -> Result<(), Fail> {
        let alloc = rt.alloc();
        check_words(&rt, alloc, &[], true, &[])?;
        check_words(&rt, alloc, &[b"jps"], true, &[])?;
        check_words(&rt, alloc, &[b"jps", b"", b"m"], true, &[b"", b"m"])?;
        check_words(&rt, alloc, &[b"\xff", b"k\xc3\xa4"], true, &[b"k\xc3\xa4"])?;
        check_words(
            &rt,
            alloc,
            &[b"jps", b"query", b"\xc3", b"m"],
            false,
            &[b"query"],
        )?;
        check_words(&rt, alloc, &[b"jps", b"\xff"], false, &[])
    }

    // Words of as many bytes as there is room for at first, of one more, and of four times as many.
    #[test]
    fn long_words_come_whole(rt: HostRuntime) -> Result<(), Fail> {
        let long = [b'w'; 4 * ROOM];
        let handed: [&[u8]; 4] = [b"jps", &long[..ROOM], &long[..ROOM + 1], &long];
        check_words(&rt, rt.alloc(), &handed, true, &handed[1..])
    }
}
