//! Deeds of an agent that follow each other in the ledger's history.

use crate::deed::Deed;
use es_event::LedgerEvent;

/// A deed of an agent, and the commands on words that it does right after it with the same ticket, as the ledger's
/// history has them: they are many, and take no memory here.
#[derive(Clone, Copy)]
pub struct Stretch<'a> {
    pub(crate) first: Deed<'a>,
    pub(crate) words: &'a [LedgerEvent],
}
