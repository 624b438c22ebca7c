//! How many of each agent's accesses are known.

ghost use Rattle.std.specs.Prelude.{◌≡◌, ◌==◌, ◌<◌, ℕ, max, if◌then◌else◌};
ghost use Rattle.es_races.specs.Pass.{count_in, known_in, raise_if};

/// As many agents as a cluster has at most.
pub(crate) const AGENTS: usize = 8;

/// For each agent a number of its first accesses: those that are known, or those up to one of them.
#[derive(Clone, Copy)]
pub(crate) struct Clock {
    counts: [usize; AGENTS],
}

impl Clock {
    /// None of any agent.
    pub fn new() -> Clock
        ensures { (j : ℕ) → count_in result j ≡ 0 }
    {
        Clock {
            counts: [0; AGENTS],
        }
    }

    /// How many of an agent's.
    pub fn count(&self, agent: usize) -> usize
        ensures { result ≡ count_in self.now agent }
    {
        if agent < AGENTS {
            self.counts[agent]
        } else {
            0
        }
    }

    /// From now on it has at least so many of an agent's.
    pub fn raise(&mut self, agent: usize, count: usize)
        ensures { (j : ℕ) → j < 8 → count_in self.new j ≡ raise_if (agent == j) count (count_in self.old j) }
    {
        if agent < AGENTS && self.counts[agent] < count {
            self.counts[agent] = count;
        }
    }

    /// From now on it has all that another clock has as well.
    pub fn join(&mut self, other: &Clock)
        ensures { (j : ℕ) → j < 8 → count_in self.new j ≡ max (count_in self.old j) (count_in other.now j) }
    {
        for agent in 0..AGENTS {
            self.raise(agent, other.count(agent));
        }
    }
}

/// The clock of an agent.
pub(crate) fn clock_of(clocks: &[Clock; AGENTS], agent: usize) -> Clock
    ensures { (j : ℕ) → count_in result j ≡ known_in clocks.now agent j }
{
    if agent < AGENTS {
        clocks[agent]
    } else {
        Clock::new()
    }
}

/// Puts another clock in the place of an agent's.
pub(crate) fn set_clock(clocks: &mut [Clock; AGENTS], agent: usize, clock: Clock)
    ensures { (a j : ℕ) → a < 8 → known_in clocks.new a j ≡ (if agent == a then count_in clock j else known_in clocks.old a j) }
{
    if agent < AGENTS {
        clocks[agent] = clock;
    }
}
