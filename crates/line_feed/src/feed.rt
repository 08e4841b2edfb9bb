//! A feed that takes pieces of a text and hands over its lines.

ghost use Rattle.std.specs.Prelude.{◌≡◌, ℕ, ◌<◌, List, [], ◌++◌, length, MatchOption, IfSome, option_to_list};
ghost use Rattle.line_feed.specs.Lines.{line_of, lines_of};
ghost use Rattle.line_feed.specs.Fed.{HasTaken, HasKept, CompletesLine, TakesAll, whole_lines};

use arrayvec::ArrayVec;
use memchr::memchr;
use text_line::without_cr;

/// The most bytes that a line has before its line feed or the end, with its carriage return.
pub const MAX_LINE: usize = 128;

/// A line of a text.
#[derive(Drop)]
pub enum FedLine {
    /// It has more than 128 bytes before its line feed or the end, a carriage return counted.
    TooLong,
    /// Its bytes, without the one carriage return that it may end with.
    Bytes(ArrayVec<u8, MAX_LINE>),
}

/// A text that comes in pieces. Of the line that is still to be completed at most 128 bytes are kept.
#[derive(Drop)]
pub struct LineFeed {
    /// The bytes of that line, unless it is too long.
    line: ArrayVec<u8, MAX_LINE>,
    too_long: bool,
}

impl LineFeed {
    /// A feed to which nothing came.
    pub fn new() -> LineFeed
        ensures { HasTaken result [] }
    {
        LineFeed {
            line: ArrayVec::new(),
            too_long: false,
        }
    }

    /// Takes a piece up to its first line feed: the line that this completes and what is left of the piece,
    /// or `None` where the piece has no line feed, and then it is taken whole.
    ///
    /// However the text was cut before, and whatever is done with the lines:
    ///
    /// ```text
    /// let mut left = piece;
    /// while let Some((line, rest)) = feed.take(left) {
    ///     answer(line);
    ///     left = rest;
    /// }
    /// ```
    pub fn take<'a>(&mut self, piece: &'a [u8]) -> Option<(FedLine, &'a [u8])>
        ensures taken { (text : List ℕ) → HasTaken self.old text
            → MatchOption result (TakesAll text piece.now self.new)
            (λ r. CompletesLine text piece.now self.new r.0 r.1.now) }
        ensures shorter { IfSome result (λ r. length r.1.now < length piece.now) }
    {
        match memchr(b'\n', piece) {
            Some(end) => {
                self.keep(&piece[..end]);
                Some((self.hand_over(), &piece[end + 1..]))
            }
            None => {
                self.keep(piece);
                None
            }
        }
    }

    /// Ends the text: its last line, where that has no line feed and is not empty. The feed is then as new.
    pub fn end(&mut self) -> Option<FedLine>
        ensures last { (text : List ℕ) → HasTaken self.old text
            → lines_of text ≡ whole_lines text ++ option_to_list result }
        ensures anew { HasTaken self.new [] }
    {
        if !self.too_long && self.line.is_empty() {
            return None;
        }
        Some(self.hand_over())
    }

    // Bytes come that end no line.
    fn keep(&mut self, bytes: &[u8])
        ensures { (begun : List ℕ) → HasKept self.old begun → HasKept self.new (begun ++ bytes.now) }
    {
        if !self.too_long && self.line.try_extend_from_slice(bytes).is_err() {
            self.too_long = true;
        }
    }

    // Hands over the line that was begun, and begins the next one.
    fn hand_over(&mut self) -> FedLine
        ensures line { (begun : List ℕ) → HasKept self.old begun → result ≡ line_of begun }
        ensures anew { HasKept self.new [] }
    {
        let mut line = self.line.take();
        if self.too_long {
            self.too_long = false;
            return FedLine::TooLong;
        }
        let count = without_cr(line.as_slice()).len();
        line.truncate(count);
        FedLine::Bytes(line)
    }
}
