//! How many events of each kind a ledger has.

ghost use Rattle.std.specs.Prelude.{◌≡◌, ◌<◌, ◌^◌, ◌∷◌, []};
ghost use Rattle.es_event.specs.Ledger.{Ledger};
ghost use Rattle.es_report.specs.LedgerTotals.{IsBelow, told};

use es_event::LedgerEvent;

/// How many blocks were made, and messages posted, taken and drained.
#[derive(Clone, Copy, Debug)]
pub(crate) struct Totals {
    pub opened: usize,
    pub posted: usize,
    pub taken: usize,
    pub drained: usize,
}

impl Totals {
    /// Before the first event.
    pub(crate) fn zero() -> Totals
        ensures { result ≡ told [] }
    {
        Totals {
            opened: 0,
            posted: 0,
            taken: 0,
            drained: 0,
        }
    }

    /// With one more event.
    pub(crate) fn with(&self, event: &LedgerEvent) -> Totals
        requires { IsBelow (2 ^ 63) self.now }
        ensures { (l : Ledger) → self.now ≡ told l → result ≡ told (event.now ∷ l) }
    {
        let mut more = *self;
        match event {
            LedgerEvent::Opened { .. } => more.opened += 1,
            LedgerEvent::Posted { .. } => more.posted += 1,
            LedgerEvent::Taken { .. } => more.taken += 1,
            LedgerEvent::Drained { .. } => more.drained += 1,
            LedgerEvent::Spent { .. } | LedgerEvent::Accessed { .. } | LedgerEvent::Acted { .. } =>
                {}
        }
        more
    }
}
