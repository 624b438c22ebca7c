//! What a run came to, let go.

use es_event::{Outcome, Plan};
use es_run::Counted;
use std::sync::Wait;
use std::thread::Threads;
use std::{mem, thread};

/// How many events a history has at least that is let go in a thread of its own.
const MANY: usize = 10_000;

/// Leaves a plan, which is let go but where the program ends.
pub(crate) fn leave_plan(plan: Plan, ends: bool) {
    if ends {
        mem::forget(plan);
    }
}

/// Leaves what a run came to, which is let go but where the program ends.
pub(crate) fn leave<R: Threads + Wait + Sync>(rt: &R, ended: Counted, turns: bool, ends: bool) {
    if ends {
        mem::forget(ended);
    } else {
        let_go(rt, ended, turns);
    }
}

/// Lets go what a run came to. After a run in threads each long history but the last has a thread of its own for it, as
/// its agent had one: to let them go one after the other takes a fifth of the instructions of their steps.
fn let_go<R: Threads + Wait + Sync>(rt: &R, ended: Counted, turns: bool) {
    if turns {
        return;
    }
    let Counted { outcome, counts: _ } = ended;
    let Outcome {
        names: _,
        histories,
        ledger: _,
    } = outcome;
    let mut histories = histories.into_vec();
    // the caller would only wait: the last one needs no thread
    let own = histories.pop();
    thread::scope(thread::scope_env(), rt, |scope| {
        for history in histories {
            if history.as_slice().len() >= MANY {
                // where no thread is made, it is let go at once
                let _ = scope.spawn(move || drop(history)).is_err();
            }
        }
        drop(own);
    });
}
