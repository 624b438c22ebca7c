//! The values of a script: how they are spelled, compared and printed, the identities that they
//! have, and the limits of a plan.
#![tactic(auto)]

mod error;
mod id;
mod id_set;
mod limits;
mod name;
mod names;
mod spelling;
mod text;
mod value;
mod write;

pub use error::NoMemory;
pub use id::Id;
pub use id_set::IdSet;
pub use limits::{
    LONGEST_NAME, LONGEST_PLAN, LONGEST_TEXT, MOST_AGENTS, MOST_BLOCKS, MOST_CALLBACKS,
    MOST_COMMANDS, MOST_IDENTITIES, MOST_JOBS, MOST_POSTS, MOST_WORDS,
};
pub use name::{Name, NameFault};
pub use names::Names;
pub use text::{Text, TextFault};
pub use value::{Value, can_be_held_weakly, same_value};
pub use write::write_value;
