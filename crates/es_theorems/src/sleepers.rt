//! What holds of an agent that sleeps.

ghost use Rattle.es_theorems.specs.Sleepers.{ASleepersBlockIsNotReleased};

/// The block at whose word an agent sleeps is not released, in threads and by turns, at any moment (ECMA-262,
/// Atomics.wait; that blocks are counted by tickets is this host's).
pub fn a_sleepers_block_is_not_released()
    ensures { ASleepersBlockIsNotReleased }
{}
