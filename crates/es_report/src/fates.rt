//! What became of a registration, and how many there are of each fate.

ghost use Rattle.std.specs.Prelude.{◌≡◌, ◌^◌};
ghost use Rattle.es_report.specs.Registered.{IsBelow, fate_of, one_more};

use es_registry::Tally;

/// What became of a registration.
#[derive(Clone, Copy)]
pub enum Fate {
    /// Its cell has its target.
    Live,
    /// Its target was emptied.
    Awaiting,
    /// Its cell was taken out by its token.
    Unregistered,
    /// Its cell was handed to the callback.
    Taken,
}

/// The totals with one more registration of this fate.
pub(crate) fn with_one(tally: Tally, fate: Fate) -> Tally
    requires { IsBelow (2 ^ 63) tally }
    ensures { result ≡ one_more (fate_of fate) tally }
{
    let mut more = tally;
    match fate {
        Fate::Live => more.live += 1,
        Fate::Awaiting => more.awaiting += 1,
        Fate::Unregistered => more.unregistered += 1,
        Fate::Taken => more.taken += 1,
    }
    more
}
