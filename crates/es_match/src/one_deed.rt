//! What one deed meets.

ghost use Rattle.std.specs.Prelude.{◌≡◌};
ghost use Rattle.es_match.specs.DeedsShown.{shown};
ghost use Rattle.es_match.specs.Shown.{meets_one};

use crate::deed::Deed;
use crate::meets::{is_pass, is_post};
use crate::tickets::BufferTickets;
use crate::word_want::meets_word;
use es_event::Atomic;
use es_value::Value;

/// What an event asks that one deed meets, and that brings the agent no ticket and takes none. An answer is the value
/// that the command gave; none stands for undefined.
#[derive(Clone, Copy)]
pub(crate) enum OneDeed<'a> {
    /// What a command on a word asks that took these values and gave this.
    AtWord {
        atomic: &'a Atomic,
        values: &'a [Value],
        answer: Option<&'a Value>,
    },
    /// To post a value.
    Posting {
        receiver: usize,
        value: Option<&'a Value>,
    },
    /// To skip a job.
    Passing {
        sender: usize,
    },
}

impl OneDeed<'_> {
    /// Whether the deed meets it, where the agent has these tickets.
    #[inline(always)]
    pub(crate) fn is_met(&self, tickets: &BufferTickets, deed: &Deed<'_>) -> bool
        ensures { result ≡ meets_one tickets.now self.now (shown deed.now) }
    {
        match self {
            OneDeed::AtWord {
                atomic,
                values,
                answer,
            } => meets_word(tickets, atomic, values, *answer, deed),
            OneDeed::Posting { receiver, value } => is_post(tickets, *receiver, *value, deed),
            OneDeed::Passing { sender } => is_pass(*sender, deed),
        }
    }
}
