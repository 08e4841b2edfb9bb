//! The grounds that are drawn in strokes.

ghost use Rattle.std.specs.Prelude.{◌≡◌, ◌||◌, ◌==◌, ℕ};
ghost use Rattle.picture.specs.Grounds as spec;

/// A ground that is drawn in strokes. What is left, `.` and `G`, is the background.
#[derive(Clone, Copy, Debug, PartialEq, Eq)]
pub enum DrawnGround {
    /// `S`
    Swamp,
    /// `T`
    Trees,
    /// `@` and `O`
    Wall,
    /// `W`
    Water,
}

impl DrawnGround {
    /// Its bytes in a map: two, which may be one.
    pub(crate) fn bytes(self) -> (u8, u8)
        ensures { (byte : ℕ) → (byte == result.0 || byte == result.1) ≡ spec.is_of self byte }
    {
        match self {
            DrawnGround::Swamp => (b'S', b'S'),
            DrawnGround::Trees => (b'T', b'T'),
            DrawnGround::Wall => (b'@', b'O'),
            DrawnGround::Water => (b'W', b'W'),
        }
    }

    /// The colour of its strokes.
    pub(crate) fn colour(self) -> &'static [u8]
        ensures { result.now ≡ spec.colour self }
    {
        match self {
            DrawnGround::Swamp => b"#c9bf8f",
            DrawnGround::Trees => b"#5c8a57",
            DrawnGround::Wall => b"#3b3f46",
            DrawnGround::Water => b"#8fbfe0",
        }
    }
}
