//! What a command on a word asks of the ledger.

ghost use Rattle.std.specs.Prelude.{◌≡◌};
ghost use Rattle.es_event.specs.Commands.{first};
ghost use Rattle.es_event.specs.Heard.{wait_given};
ghost use Rattle.es_event.specs.Numbers.{index_of, task_of};
ghost use Rattle.es_match.specs.DeedsShown.{shown};
ghost use Rattle.es_match.specs.Shown.{meets_task, meets_wait, said};

use crate::deed::Deed;
use crate::meets::is_access;
use crate::tickets::BufferTickets;
use crate::waited::{is_end_of_sleep, is_miss, is_notify};
use crate::want::first;
use es_event::{Atomic, Task, WaitResult};
use es_value::Value;

/// Whether the deed meets what a command on a word asks that took these values and gave this.
#[inline(always)]
pub(crate) fn meets_word(
    tickets: &BufferTickets,
    atomic: &Atomic,
    values: &[Value],
    answer: Option<&Value>,
    deed: &Deed<'_>,
) -> bool
    ensures { result ≡ meets_task tickets.now (first values.now) (index_of atomic.now values.now) (task_of atomic.now values.now) (said answer.entry) (shown deed.now) }
{
    let buffer = first(values);
    let index = atomic.index_of(values);
    match atomic.task_of(values) {
        Task::Access(access) => is_access(tickets, buffer, index, access, answer, deed),
        Task::Sleep(word) => { meets_wait(tickets, buffer, index, word, wait_result(answer), deed) }
        Task::Notify(count) => is_notify(tickets, buffer, index, count, answer, deed),
    }
}

/// Whether the deed meets a wait that ended so.
#[inline(never)]
fn meets_wait(
    tickets: &BufferTickets,
    buffer: Option<&Value>,
    index: i64,
    word: u32,
    ended: WaitResult,
    deed: &Deed<'_>,
) -> bool
    ensures { result ≡ meets_wait tickets.now (said buffer.entry) index word ended (shown deed.now) }
{
    match ended {
        WaitResult::NotEqual => is_miss(tickets, buffer, index, word, deed),
        WaitResult::Woken | WaitResult::TimedOut => {
            is_end_of_sleep(tickets, buffer, index, word, ended, deed)
        }
    }
}

/// How a wait ended that gave this.
#[inline(never)]
fn wait_result(answer: Option<&Value>) -> WaitResult
    ensures { result ≡ wait_given (said answer.entry) }
{
    match answer {
        Some(Value::Text(text)) => {
            if text.as_str() == "ok" {
                WaitResult::Woken
            } else if text.as_str() == "timed-out" {
                WaitResult::TimedOut
            } else {
                WaitResult::NotEqual
            }
        }
        _ => WaitResult::NotEqual,
    }
}
