//! What holds of plans whose agents share words and never sleep, where messages order their accesses. Each law is the
//! contract of a function that does nothing. Two accesses race here where no message orders them: all are
//! sequentially consistent, so none is a data race (ECMA-262, Memory Model), and yet their order may show.

ghost use Rattle.es_theorems.specs.WithoutRaces.{MessagesAloneDoNotRace, MessagesAloneDoNotRaceByTurns, WithoutRacesNoTurnsRace, WithoutRacesThreadsReportAsByTurns, WithoutRacesThreadsSayAsByTurns, WithoutRacesTurnsSayAlike};

/// If in one list of turns that ends no two accesses to a word race, every list of turns that ends has the
/// same histories.
pub fn without_races_turns_say_alike()
    ensures { WithoutRacesTurnsSayAlike }
{}

/// And no two accesses race in it.
pub fn without_races_no_turns_race()
    ensures { WithoutRacesNoTurnsRace }
{}

/// If by turns no two accesses race, each agent has one history in threads too: the one by turns.
pub fn without_races_threads_say_as_by_turns()
    ensures { WithoutRacesThreadsSayAsByTurns }
{}

/// So what is reported of the plan in threads is what is reported of it by turns.
pub fn without_races_threads_report_as_by_turns()
    ensures { WithoutRacesThreadsReportAsByTurns }
{}

/// Agents that read and write no word race for none.
pub fn messages_alone_do_not_race()
    ensures { MessagesAloneDoNotRace }
{}

/// So by turns they race for none.
pub fn messages_alone_do_not_race_by_turns()
    ensures { MessagesAloneDoNotRaceByTurns }
{}
