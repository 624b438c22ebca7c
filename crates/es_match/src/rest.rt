//! What is left of an agent's part in a ledger's history.

ghost use Rattle.std.specs.Prelude.{◌≡◌, [], ◌∷◌, MatchOption};
ghost use Rattle.es_match.specs.DeedsShown.{shown};
ghost use Rattle.es_match.specs.Split.{stretches_said};

use crate::deed::Deed;
use crate::stretch::Stretch;
use crate::words::first_word;
use es_event::LedgerEvent;
use std::marker::Model;

/// What is left of an agent's part in a ledger's history, the oldest deed first.
#[derive(Drop)]
pub struct Rest<'a, 'b> {
    // the commands on words that come first
    words: &'a [LedgerEvent],
    // what comes after them
    stretches: &'b [Stretch<'a>],
}

impl<'a, 'b> Model for Rest<'a, 'b> {
    ghost use Rattle.std.specs.Prelude.{List, ◌++◌};
    ghost use Rattle.es_match.specs.Deeds.{Deed as DeedSaid};
    ghost use Rattle.es_match.specs.Split.{stretches_said};
    ghost use Rattle.es_match.specs.Words.{words_said};

    ghost Value = { List DeedSaid };

    ghost view = { λ r. words_said r.words.now ++ stretches_said r.stretches.now };
}

impl<'a, 'b> Rest<'a, 'b> {
    /// The whole part.
    pub fn of(part: &'b [Stretch<'a>]) -> Rest<'a, 'b>
        ensures { result ≡ stretches_said part.now }
    {
        Rest {
            words: &[],
            stretches: part,
        }
    }

    /// The next deed, which is left no more, if there is one.
    #[inline(always)]
    pub fn next(&mut self) -> Option<Deed<'a>>
        ensures { MatchOption result ((self.old ≡ []) × (self.new ≡ [])) (λ d. self.old ≡ shown d ∷ self.new) }
    {
        if let Some(deed) = first_word(self.words) {
            self.words = &self.words[1..];
            return Some(deed);
        }
        if self.stretches.is_empty() {
            return None;
        }
        let stretch = self.stretches[0];
        self.words = stretch.words;
        self.stretches = &self.stretches[1..];
        Some(stretch.first)
    }
}
