//! What is done to a word of shared memory.

ghost use Rattle.std.specs.Prelude.{◌≡◌, ◌<◌, ◌^◌};
ghost use Rattle.es_event.specs.Access.{change_by, is_same_change, modified, wait_text, to_uint32, word_for};

/// What a command does at a word of a Shared Data Block (ECMA-262, The Atomics Object).
#[derive(Clone, Copy, Debug)]
pub enum Task {
    /// It reads or writes the word.
    Access(Access),
    /// It sleeps, where this is the word (Atomics.wait).
    Sleep(u32),
    /// It takes the first agents out of the WaiterList there, so many at most (Atomics.notify).
    Notify(u32),
}

/// How a wait at a word ended (ECMA-262, Atomics.wait).
#[derive(Clone, Copy, Debug, PartialEq, Eq)]
pub enum WaitResult {
    /// A notify took the agent.
    Woken,
    /// The word was another one.
    NotEqual,
    /// Its time-out passed.
    TimedOut,
}

impl WaitResult {
    /// The text that the wait gives.
    pub fn text(self) -> &'static str
        ensures { result.now ≡ wait_text self }
    {
        match self {
            WaitResult::Woken => "ok",
            WaitResult::NotEqual => "not-equal",
            WaitResult::TimedOut => "timed-out",
        }
    }
}

/// What a command does with a word of a Shared Data Block, in one step (ECMA-262, The Atomics Object).
#[derive(Clone, Copy, Debug)]
pub struct Access {
    /// What is done to the word.
    pub edit: Edit,
    /// Whether the command gives the word that was there.
    pub gives_word: bool,
}

/// What is done to a word of a Shared Data Block, whatever word it is.
#[derive(Clone, Copy, Debug)]
pub enum Edit {
    /// The same becomes of each word.
    Plain(Change),
    /// It is modified by this word (ECMA-262, AtomicReadModifyWrite).
    Modify(Modification, u32),
    /// Where it is the first of these words, the second is written in its place (ECMA-262,
    /// Atomics.compareExchange).
    Compare(u32, u32),
}

/// How a word of a Shared Data Block is modified by another (ECMA-262, AtomicReadModifyWrite).
#[derive(Clone, Copy, Debug, PartialEq, Eq)]
pub enum Modification {
    /// Their sum, modulo 2^32 (Atomics.add).
    Add,
    /// The difference, modulo 2^32 (Atomics.sub).
    Sub,
    /// The bits that both have (Atomics.and).
    And,
    /// The bits that one of them has (Atomics.or).
    Or,
    /// The bits that just one of them has (Atomics.xor).
    Xor,
    /// The other word (Atomics.exchange).
    Exchange,
}

/// What becomes of a word of a Shared Data Block, as the ledger's event says it.
#[derive(Clone, Copy, Debug)]
pub enum Change {
    /// It stays as it is (Atomics.load).
    Keep,
    /// This word is written in its place (Atomics.store).
    Write(u32),
    /// This word is added to it, modulo 2^32 (Atomics.add).
    Add(u32),
}

impl Edit {
    /// What becomes of the word, where it is this one.
    #[inline(always)]
    pub fn on(self, word: u32) -> Change
        ensures { result ≡ change_by self word }
    {
        match self {
            Edit::Plain(change) => change,
            Edit::Modify(Modification::Add, addend) => Change::Add(addend),
            Edit::Modify(how, other) => Change::Write(how.of(word, other)),
            Edit::Compare(expected, replacement) => {
                if word == expected {
                    Change::Write(replacement)
                } else {
                    Change::Keep
                }
            }
        }
    }
}

impl Modification {
    /// The word of a plan that names it.
    pub fn word(self) -> &'static str
        ensures { result.now ≡ word_for self }
    {
        match self {
            Modification::Add => "add",
            Modification::Sub => "sub",
            Modification::And => "and",
            Modification::Or => "or",
            Modification::Xor => "xor",
            Modification::Exchange => "exchange",
        }
    }

    /// The word that is written in the place of a word, by another.
    fn of(self, word: u32, other: u32) -> u32
        ensures { result ≡ modified self other word }
    {
        match self {
            Modification::Add => word.wrapping_add(other),
            Modification::Sub => word.wrapping_sub(other),
            Modification::And => word & other,
            Modification::Or => word | other,
            Modification::Xor => word ^ other,
            Modification::Exchange => other,
        }
    }
}

impl Change {
    /// Whether the same becomes of a word.
    #[inline(always)]
    pub fn is_same(self, other: Change) -> bool
        ensures { result ≡ is_same_change self other }
    {
        match (self, other) {
            (Change::Keep, Change::Keep) => true,
            (Change::Write(word), Change::Write(written)) => word == written,
            (Change::Add(addend), Change::Add(added)) => addend == added,
            _ => false,
        }
    }
}

/// The word of 32 bits that is written for a number (ECMA-262, ToUint32).
#[inline(always)]
pub fn to_uint32(number: i64) -> u32
    ensures { result ≡ to_uint32 number }
{
    number.rem_euclid(4_294_967_296).unsigned_abs() as u32
}
