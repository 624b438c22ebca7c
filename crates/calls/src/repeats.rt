//! Which calls are made again.

/// A call of an agent, or of its ledger, that may find no memory.
#[derive(Clone, Copy, Debug, PartialEq, Eq)]
pub(crate) enum Call {
    /// No call.
    Nothing,
    /// A step that asks nobody else.
    Perform,
    /// A collection, and its marks.
    Collect,
    /// The opening of a later collection.
    BeginLater,
    /// Its end, and its marks.
    FinishLater,
    /// A ticket comes.
    Admit,
    /// A value comes.
    Receive,
    /// A word comes.
    AnswerWord,
    /// A wait has ended.
    AnswerWait,
    /// What was asked for was done.
    AnswerDone,
    /// A job is skipped.
    Skip,
    /// The closing, which takes no memory.
    Close,
    /// The ledger opens a block.
    OpenBlock,
    /// It posts a value.
    Post,
    /// It posts a block.
    PostBuffer,
    /// It looks for a message.
    AwaitMessage,
    /// It reads a word, or writes one, or does both.
    Access,
    /// It lets the agent sleep at a word.
    WaitAt,
    /// It wakes those that sleep at a word.
    Notify,
}

/// How calls are made that find no memory, and which were.
#[derive(Clone, Copy, Debug)]
pub(crate) struct Calls {
    repeats: bool,
    /// How many were made once more.
    pub(crate) again: u64,
    /// The last of them.
    pub(crate) last: Call,
}

impl Calls {
    /// Such a call is made once more, or else not, and none was so far.
    pub(crate) fn new(repeats: bool) -> Self {
        Calls {
            repeats,
            again: 0,
            last: Call::Nothing,
        }
    }

    /// Whether this call, which found no memory, is to be made once more. It is counted then.
    pub(crate) fn is_made_again(&mut self, call: Call) -> bool {
        if self.repeats {
            self.again = self.again.saturating_add(1);
            self.last = call;
        }
        self.repeats
    }
}
