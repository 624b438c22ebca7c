//! What holds of words that agents share. Each law is the contract of a function that does nothing.

ghost use Rattle.es_laws.specs.Memory.{AWordStaysTillItIsWritten, AccessesHaveOneOrder, NoAddLosesAnother, WhatWasStoredBeforeAPostIsSeen};

/// All accesses of all agents to words have one total order, in which each finds what the newest before it
/// left there (ECMA-262, Memory Model: sequentially consistent accesses).
pub fn accesses_have_one_order()
    ensures { AccessesHaveOneOrder }
{}

/// Where a word is not written between two accesses, the later finds what the earlier left: a load gives the
/// last write before it, and never an older one than a load before it (ECMA-262, Memory Model, coherence).
pub fn a_word_stays_till_it_is_written()
    ensures { AWordStaysTillItIsWritten }
{}

/// No add loses another: a word that nobody stores is the sum of all that was added to it, modulo 2^32
/// (ECMA-262, Atomics.add).
pub fn no_add_loses_another()
    ensures { NoAddLosesAnother }
{}

/// What was stored before a message was posted is seen after it was received: a message is taken after it
/// was posted (ECMA-262, Memory Model, host-synchronizes-with).
pub fn what_was_stored_before_a_post_is_seen()
    ensures { WhatWasStoredBeforeAPostIsSeen }
{}
