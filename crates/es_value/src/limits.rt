//! The limits of a plan and of a run, as `specs/Limits` has them.

/// How many bytes a name has at most.
pub const LONGEST_NAME: usize = 32;

/// How many bytes a text has at most.
pub const LONGEST_TEXT: usize = 256;

/// How many bytes a plan has at most.
pub const LONGEST_PLAN: usize = 4_294_967_295;

/// How many agents a plan has at most.
pub const MOST_AGENTS: usize = 8;

/// How many callbacks an agent has at most.
pub const MOST_CALLBACKS: usize = 1_000;

/// How many jobs an agent has at most.
pub const MOST_JOBS: usize = 1_000;

/// How many commands a job or a callback has at most.
pub const MOST_COMMANDS: usize = 10_000;

/// How many identities an agent makes at most.
pub const MOST_IDENTITIES: u32 = 1_000_000;

/// How many Shared Data Blocks an agent opens at most.
pub const MOST_BLOCKS: usize = 256;

/// How many messages an agent posts at most.
pub const MOST_POSTS: usize = 10_000;

/// How many words of 32 bits a Shared Data Block has at most.
pub const MOST_WORDS: u32 = 16_384;
