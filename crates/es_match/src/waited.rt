//! Which deeds meet a wait and a notify.

ghost use Rattle.std.specs.Prelude.{◌≡◌};
ghost use Rattle.es_match.specs.DeedsShown.{shown};
ghost use Rattle.es_match.specs.Meets.{is_end_of_sleep, is_miss, is_notify, is_sleep_at};
ghost use Rattle.es_match.specs.Shown.{said};

use crate::deed::{Deed, Sleep};
use crate::meets::{is_number, is_ticket, same_index};
use crate::tickets::BufferTickets;
use es_event::{Change, WaitResult};
use es_value::Value;

/// Whether the deed only read a word, and it is another than this.
pub(crate) fn is_miss(
    tickets: &BufferTickets,
    buffer: Option<&Value>,
    at: i64,
    word: u32,
    deed: &Deed<'_>,
) -> bool
    ensures { result ≡ is_miss tickets.now (said buffer.entry) at word (shown deed.now) }
{
    match deed {
        Deed::Access {
            serial,
            index,
            change,
            old,
        } => {
            is_ticket(tickets, buffer, *serial)
                && same_index(at, *index)
                && Change::Keep.is_same(*change)
                && *old != word
        }
        _ => false,
    }
}

/// Whether a sleep began at a word, which was this one, and ended so.
pub(crate) fn is_end_of_sleep(
    tickets: &BufferTickets,
    buffer: Option<&Value>,
    at: i64,
    word: u32,
    ended: WaitResult,
    deed: &Deed<'_>,
) -> bool
    ensures { result ≡ is_end_of_sleep tickets.now (said buffer.entry) at word ended (shown deed.now) }
{
    match ended {
        WaitResult::Woken => match deed {
            Deed::Wake(sleep) => is_sleep_at(tickets, buffer, at, word, sleep),
            _ => false,
        },
        WaitResult::TimedOut => match deed {
            Deed::TimeOut(sleep) => is_sleep_at(tickets, buffer, at, word, sleep),
            _ => false,
        },
        WaitResult::NotEqual => false,
    }
}

fn is_sleep_at(
    tickets: &BufferTickets,
    buffer: Option<&Value>,
    at: i64,
    word: u32,
    sleep: &Option<Sleep>,
) -> bool
    ensures { result ≡ is_sleep_at tickets.now (said buffer.entry) at word sleep.now }
{
    match sleep {
        Some(sleep) => {
            is_ticket(tickets, buffer, sleep.serial)
                && same_index(at, sleep.index)
                && sleep.word == word
        }
        None => false,
    }
}

/// Whether so many were to be taken at most, and the answer is how many were.
#[inline(never)]
pub(crate) fn is_notify(
    tickets: &BufferTickets,
    buffer: Option<&Value>,
    at: i64,
    most: u32,
    answer: Option<&Value>,
    deed: &Deed<'_>,
) -> bool
    ensures { result ≡ is_notify tickets.now (said buffer.entry) at most (said answer.entry) (shown deed.now) }
{
    match deed {
        Deed::Notify {
            serial,
            index,
            count,
            taken,
        } => {
            is_ticket(tickets, buffer, *serial)
                && same_index(at, *index)
                && *count == most as usize
                && is_number(answer, *taken)
        }
        _ => false,
    }
}
