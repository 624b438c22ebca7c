//! The engine as a C library: the bytes of a plan in, and the bytes of its report or of its trace out; or a
//! cluster whose agents C moves, turn by turn. The agents run in the calling thread; between calls nothing is kept but the
//! answers and the clusters that C keeps.
#![tactic(auto)]

mod asked;
mod asking;
mod held;
mod keeping;
mod kept;
mod named;
mod pointer;
mod reply;
mod stepping;

ghost use Rattle.std.specs.Prelude.{◌≡◌, true, false, drop};
ghost use Rattle.es_library.specs.Clusters.{Begins, CountsAll, IsHeld, Reports, Says, Steps};
ghost use Rattle.es_library.specs.Keeps.{Keeps};
ghost use Rattle.es_library.specs.Replies.{Holds, Replies};

pub use asked::Asked;
pub use asking::Counts;
use asking::{count_named, end_named, say_named};
pub use held::Held;
use keeping::{copy_from, give_up, keep};
pub use kept::Kept;
use reply::{DONE, NO_MEMORY, reply};
use std::alloc::Global;
use std::marker::Brand;
use stepping::{begin, give_up_named, step_named};

/// Runs a plan. Answers 0 with the report, 1 with the text of the first fault, 3 for want of memory and 4
/// where there are more bytes than a plan has at most, which are the program's statuses.
///
/// The text goes to the front of `out`, as much of it as there is room for, and its whole length in bytes to
/// `length`; the rest of `out` is unchanged. Where there is no text, `length` is 0 and all of `out` unchanged.
#[unsafe(no_mangle)]
pub extern "C" fn clusterrun_run(
    alloc: Global,
    plan: &[u8],
    out: &mut [u8],
    length: &mut usize,
) -> u32
    ensures { Replies Asked.Report plan.now out.old out.new length.new result }
{
    reply(alloc, plan, Asked::Report, out, length)
}

/// Checks a plan, and does not run it: the text is `ok` and a line end where it has no fault. All else is as
/// with `clusterrun_run`.
#[unsafe(no_mangle)]
pub extern "C" fn clusterrun_check(
    alloc: Global,
    plan: &[u8],
    out: &mut [u8],
    length: &mut usize,
) -> u32
    ensures { Replies Asked.Check plan.now out.old out.new length.new result }
{
    reply(alloc, plan, Asked::Check, out, length)
}

/// Runs a plan and gives its trace: what happened, a line of JSON for each event. With `all` it tells of each value
/// that stays after a collection what keeps it; else only of what is held weakly, and of what keeps that. All else
/// is as with `clusterrun_run`.
#[unsafe(no_mangle)]
pub extern "C" fn clusterrun_trace(
    alloc: Global,
    plan: &[u8],
    all: bool,
    out: &mut [u8],
    length: &mut usize,
) -> u32
    ensures { Replies (Asked.Trace all) plan.now out.old out.new length.new result }
{
    reply(alloc, plan, Asked::Trace { all }, out, length)
}

/// Runs a plan and keeps what there is to say of it, in `answer`, which keeps nothing yet. Answers the status,
/// and gives the length of the text in bytes; where there is no text, `length` is 0 and `answer` unchanged.
#[unsafe(no_mangle)]
pub extern "C" fn clusterrun_keep_run(
    alloc: Global,
    plan: &[u8],
    answer: &mut Kept,
    length: &mut usize,
) -> u32
    requires empty { answer.old.filled ≡ false }
    ensures { Keeps Asked.Report plan.now answer.old answer.new length.new result }
{
    keep(alloc, plan, Asked::Report, answer, length)
}

/// Checks a plan, and does not run it. All else is as with `clusterrun_keep_run`.
#[unsafe(no_mangle)]
pub extern "C" fn clusterrun_keep_check(
    alloc: Global,
    plan: &[u8],
    answer: &mut Kept,
    length: &mut usize,
) -> u32
    requires empty { answer.old.filled ≡ false }
    ensures { Keeps Asked.Check plan.now answer.old answer.new length.new result }
{
    keep(alloc, plan, Asked::Check, answer, length)
}

/// Runs a plan and keeps its trace, as `clusterrun_trace` gives it. All else is as with `clusterrun_keep_run`.
#[unsafe(no_mangle)]
pub extern "C" fn clusterrun_keep_trace(
    alloc: Global,
    plan: &[u8],
    all: bool,
    answer: &mut Kept,
    length: &mut usize,
) -> u32
    requires empty { answer.old.filled ≡ false }
    ensures { Keeps (Asked.Trace all) plan.now answer.old answer.new length.new result }
{
    keep(alloc, plan, Asked::Trace { all }, answer, length)
}

/// Puts what a kept text has from this place on to the front of `out`, as much of it as there is room for, and
/// answers how many bytes it has from there on. The text goes on to be kept, in `next`, which keeps nothing yet.
#[unsafe(no_mangle)]
pub extern "C" fn clusterrun_kept_part(
    answer: Kept,
    place: usize,
    out: &mut [u8],
    next: &mut Kept,
) -> usize
    requires filled { answer.filled ≡ true }
    requires empty { next.old.filled ≡ false }
    ensures part { Holds (drop place answer.value.bytes.items) out.old out.new result }
    ensures stays { (next.new.filled ≡ true) × (next.new.value ≡ answer.value) }
{
    copy_from(answer, place, out, next)
}

/// Gives a kept text up, with its memory.
#[unsafe(no_mangle)]
pub extern "C" fn clusterrun_kept_free(answer: Kept)
    requires filled { answer.filled ≡ true }
{
    give_up(answer)
}

/// Reads a plan and keeps its cluster, before the first event of any agent, in `cluster`, which keeps nothing
/// yet. Answers 0 with the number of agents, 1 with the text of the first fault in `out` and its length, 3 for
/// want of memory and 4 where there are more bytes than a plan has at most. But for 0, `cluster` is unchanged
/// and `agents` 0.
#[unsafe(no_mangle)]
pub extern "C" fn clusterrun_begin(
    alloc: Global,
    plan: &[u8],
    cluster: &mut Held,
    agents: &mut usize,
    out: &mut [u8],
    length: &mut usize,
) -> u32
    requires empty { cluster.old.filled ≡ false }
    ensures { Begins plan.now cluster.old cluster.new agents.new out.old out.new length.new result }
{
    begin(alloc, plan, cluster, agents, out, length)
}

/// One turn of an agent: its next event, with what it asks for done. Answers 0 where it has one event more, 1
/// where it waits on for a message or sleeps, 2 where it has ended, 3 for want of memory, after which no agent moves any
/// more, and 4 where there is no such agent. The cluster goes on to be kept, in `next`, which keeps nothing yet.
#[unsafe(no_mangle)]
pub extern "C" fn clusterrun_cluster_step(cluster: Held, agent: usize, next: &mut Held) -> u32
    requires held { IsHeld cluster }
    requires empty { next.old.filled ≡ false }
    ensures held { IsHeld next.new }
    ensures plan { next.new.plan ≡ cluster.plan }
    ensures steps { Steps agent cluster.value next.new.value result }
{
    let (named, answer) = step_named::<Brand>(cluster.named(), agent);
    *next = Held::full(named);
    answer
}

/// Puts the lines that the report has of an agent's events, from the one with the number `from` on, to the
/// front of `out`, as much of them as there is room for; their whole length in bytes to `length`, and to
/// `events` how many events the agent has. Answers 0; 3 for want of memory and 4 where there is no such agent:
/// then all of `out` is unchanged, and `length` and `events` are 0. The cluster goes on to be kept, in `next`,
/// which keeps nothing yet.
#[unsafe(no_mangle)]
pub extern "C" fn clusterrun_cluster_said(
    alloc: Global,
    cluster: Held,
    agent: usize,
    from: usize,
    out: &mut [u8],
    length: &mut usize,
    events: &mut usize,
    next: &mut Held,
) -> u32
    requires held { IsHeld cluster }
    requires empty { next.old.filled ≡ false }
    ensures held { IsHeld next.new }
    ensures same { (next.new.plan ≡ cluster.plan) × (next.new.value ≡ cluster.value) }
    ensures says { Says agent from cluster.value out.old out.new length.new events.new result }
{
    let (named, status) = say_named::<Brand>(
        alloc,
        cluster.named(),
        agent,
        from,
        out,
        length,
        events,
    );
    *next = Held::full(named);
    status
}

/// Counts all tickets of the cluster. Answers 0, or 3 for want of memory; then `counts` is unchanged. The
/// cluster goes on to be kept, in `next`, which keeps nothing yet.
#[unsafe(no_mangle)]
pub extern "C" fn clusterrun_cluster_audit(
    cluster: Held,
    counts: &mut Counts,
    next: &mut Held,
) -> u32
    requires held { IsHeld cluster }
    requires empty { next.old.filled ≡ false }
    ensures held { IsHeld next.new }
    ensures same { (next.new.plan ≡ cluster.plan) × (next.new.value ≡ cluster.value) }
    ensures counts { CountsAll cluster.value counts.old counts.new result }
{
    let (named, status) = count_named::<Brand>(cluster.named(), counts);
    *next = Held::full(named);
    status
}

/// Runs what is left of the cluster by turns, and keeps the report of the whole in `answer`, which keeps
/// nothing yet; its length in bytes goes to `length`. Answers 0, or 3 for want of memory, now or in a turn
/// before: then there is no text, `length` is 0 and `answer` unchanged. The cluster is used up either way.
#[unsafe(no_mangle)]
pub extern "C" fn clusterrun_cluster_end(
    alloc: Global,
    cluster: Held,
    answer: &mut Kept,
    length: &mut usize,
) -> u32
    requires held { IsHeld cluster }
    requires empty { answer.old.filled ≡ false }
    ensures { Reports cluster answer.old answer.new length.new result }
{
    if end_named::<Brand>(alloc, cluster.named(), answer, length) {
        DONE
    } else {
        NO_MEMORY
    }
}

/// Gives a cluster up, however far its agents are, with its memory.
#[unsafe(no_mangle)]
pub extern "C" fn clusterrun_cluster_free(cluster: Held)
    requires held { IsHeld cluster }
{
    give_up_named::<Brand>(cluster.named())
}
