//! The versions of the format.

/// A version of the format.
#[derive(Clone, Copy, Debug)]
pub enum Version {
    /// The first.
    One,
    /// The second, which has later collections besides.
    Two,
    /// The third, which has all operations on words besides, and variables in the place of numbers.
    Three,
}
