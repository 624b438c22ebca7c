//! How a command is written.

/// How a command is written: for people, or for programs.
#[derive(Clone, Copy, Debug, PartialEq, Eq)]
pub enum Style {
    /// Its word and its operands with blanks between them: `set o p y`.
    Words,
    /// The JSON array that a plan has of it, with no blanks: `["set","o","p","y"]`.
    Json,
}
