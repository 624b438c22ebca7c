//! What a trace shows, and how.

/// How a trace is written.
#[derive(Clone, Copy, Debug, PartialEq, Eq)]
pub enum Form {
    /// Rows in columns, for people.
    Rows,
    /// A line of JSON for each event, for programs.
    Lines,
    /// The heap after each collection, in Graphviz's language.
    Pictures,
}

/// What a trace shows, and how.
#[derive(Clone, Copy, Debug, PartialEq, Eq)]
pub struct View {
    /// How it is written.
    pub form: Form,
    /// Whether it tells of each value that stays after a collection what keeps it, and not only of what is held
    /// weakly and of what keeps that. Pictures show all that is there either way.
    pub all: bool,
}
