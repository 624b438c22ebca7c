//! Words that are read and written with one ticket, one after another.

ghost use Rattle.std.specs.Prelude.{◌≡◌, ◌<◌, ◌≤◌, [], ◌∷◌, length, take, drop, IfSome, IfNone};
ghost use Rattle.es_match.specs.DeedsShown.{shown};
ghost use Rattle.es_match.specs.Words.{AreWordsAfter, AreWordsBy, is_word_by, words_said};

use crate::deed::Deed;
use es_event::LedgerEvent;

/// What the first event is to the holder of its ticket, where it reads or writes a word.
#[inline(always)]
pub(crate) fn first_word<'a>(events: &[LedgerEvent]) -> Option<Deed<'a>>
    ensures some { IfSome result (λ d. (0 < length events.now) × (words_said events.now ≡ shown d ∷ words_said (drop 1 events.now))) }
    ensures none { IfNone result (words_said events.now ≡ []) }
{
    match events.first() {
        Some(
            LedgerEvent::Accessed {
                serial,
                index,
                change,
                old,
            },
        ) => Some(Deed::Access {
            serial: *serial,
            index: *index,
            change: *change,
            old: *old,
        }),
        _ => None,
    }
}

/// Whether the event reads or writes a word with the ticket of this serial.
#[inline(always)]
fn is_word_by(by: u64, event: &LedgerEvent) -> bool
    ensures { result ≡ is_word_by by event.now }
{
    match event {
        LedgerEvent::Accessed { serial, .. } => by == *serial,
        _ => false,
    }
}

/// How many events there are first that read or write a word with the ticket of this serial.
fn count_words(by: u64, events: &[LedgerEvent]) -> usize
    ensures within { result ≤ length events.now }
    ensures words { AreWordsBy by (take result events.now) }
{
    let mut count = 0;
    while count < events.len() && is_word_by(by, &events[count]) {
        count += 1;
    }
    count
}

/// How many events follow one and read or write words with the same ticket, where it does that itself.
pub(crate) fn words_after(event: &LedgerEvent, later: &[LedgerEvent]) -> usize
    ensures within { result ≤ length later.now }
    ensures words { AreWordsAfter event.now (take result later.now) }
{
    match event {
        LedgerEvent::Accessed { serial, .. } => count_words(*serial, later),
        _ => 0,
    }
}
