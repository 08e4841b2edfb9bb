//! The cells between which a walk is asked for.

/// The ends of a query, each by its column and its row, both counted from 0.
#[derive(Clone, Copy, Debug)]
pub struct AskedEnds {
    pub sx: u32,
    pub sy: u32,
    pub gx: u32,
    pub gy: u32,
}
