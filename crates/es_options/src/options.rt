//! What a run is asked for.

ghost use Rattle.std.specs.Prelude.{◌≡◌, max, min};

/// What a run is asked for, but for the reader and the writer.
#[derive(Clone, Copy, Debug, PartialEq, Eq)]
pub struct Options {
    /// Only read the plan, and say that it is one.
    pub check: bool,
    /// Move the agents by turns, in one thread; else each has a thread, the first the caller's.
    pub turns: bool,
    /// How many helpers mark what an agent reaches, 1 to 8; by turns none do.
    pub helpers: u8,
    /// How many audits of the shared blocks are made beside the agents, at most 1000; by turns none are.
    pub watch: u16,
}

impl Options {
    /// A run, with no other option.
    pub const RUN: Options = Options {
        check: false,
        turns: false,
        helpers: 1,
        watch: 0,
    };

    /// Only a check of the plan.
    pub const CHECK: Options = Options {
        check: true,
        turns: false,
        helpers: 1,
        watch: 0,
    };

    /// How many helpers mark where this many are asked for: at least 1, and at most 8.
    pub fn helpers_within(asked: u8) -> u8
        ensures { result ≡ min 8 (max 1 asked) }
    {
        asked.clamp(1, 8)
    }

    /// How many audits are made where this many are asked for: at most 1000.
    pub fn watch_within(asked: u16) -> u16
        ensures { result ≡ min 1000 asked }
    {
        asked.min(1000)
    }
}
