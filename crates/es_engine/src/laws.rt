//! What is said of answers as a whole: the contract of a function that does nothing.

ghost use Rattle.es_engine.specs.Laws.{APlanHasOneAnswer, WithoutRacesAPlanHasOneAnswer};

/// A plan whose agents share no word has one answer, in threads and by turns, whatever they post, wait for and
/// skip: where a run ends well, what it wrote is the one report of its plan.
pub fn a_plan_has_one_answer()
    ensures { APlanHasOneAnswer }
{}

/// So has a plan whose agents never sleep, and of which by turns no two accesses to a word race: a message goes
/// from one to the other.
pub fn without_races_a_plan_has_one_answer()
    ensures { WithoutRacesAPlanHasOneAnswer }
{}
