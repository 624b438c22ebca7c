//! What an event adds to the numbers of opened blocks and of posted messages, and whether it opens or ends
//! a later collection.

ghost use Rattle.std.specs.Prelude.{◌≡◌, ◌≤◌, ◌∷◌, is_some};
ghost use Rattle.es_event.specs.History.{History};
ghost use Rattle.es_event.specs.Later.{snapshot};
ghost use Rattle.es_event.specs.Sharing.{opens_at, posts_at};

use es_event::{Command, Event};

/// How many blocks the event opens.
pub(crate) fn blocks_in(event: &Event) -> usize
    ensures said { result ≡ opens_at event.now }
    ensures few { result ≤ 1 }
{
    match event {
        Event::Did(done) => match done.command() {
            Command::SharedArrayBuffer { .. } => 1,
            _ => 0,
        },
        _ => 0,
    }
}

/// How many messages the event posts.
pub(crate) fn posts_in(event: &Event) -> usize
    ensures said { result ≡ posts_at event.now }
    ensures few { result ≤ 1 }
{
    match event {
        Event::Did(done) => match done.command() {
            Command::Post { .. } => 1,
            _ => 0,
        },
        _ => 0,
    }
}

/// Whether a later collection is open after the event, where it tells whether one was before.
pub(crate) fn open_after(event: &Event, before: bool) -> bool
    ensures { (h : History) → before ≡ is_some (snapshot h) → result ≡ is_some (snapshot (event.now ∷ h)) }
{
    match event {
        Event::Did(done) => before || matches!(done.command(), Command::CollectLater),
        Event::Emptied { .. } => false,
        _ => before,
    }
}
