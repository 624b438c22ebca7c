//! Commands, events and plans, and what a history of events means.
#![tactic(auto)]

mod access;
mod atomic;
mod caught;
mod command;
mod cursor;
mod done;
mod due;
mod event;
mod held;
mod kept;
mod ledger_event;
mod literal;
mod log;
mod numbers;
mod operand;
mod optional_name;
mod outcome;
mod plan;
mod plan_command;
mod row;
mod sequence;
mod shared_list;
mod waiter;

pub use access::{Access, Change, Edit, Modification, Task, WaitResult, to_uint32};
pub use atomic::{Atomic, AtomicParts, MOST_TAKEN, Operation, count_of, cut};
pub use caught::catch_refusal;
pub use command::{Command, OperandNames};
pub use cursor::{
    Cleanup, Cursor, Position, callback_catches, callback_command, callback_commands, catches,
    commands, job_command,
};
pub use done::{AnswerRef, Done};
pub use due::{Due, due_command};
pub use event::{Answer, Event, Refusal};
pub use ledger_event::{Act, Body, LedgerEvent};
pub use literal::Literal;
pub use log::Log;
pub use numbers::number_of;
pub use operand::Operand;
pub use optional_name::OptionalName;
pub use outcome::Outcome;
pub use plan::{AgentPlan, Callback, Job, Plan};
pub use plan_command::PlanCommand;
pub use row::{Entry, Holder, Row};
pub use sequence::Sequence;
pub use shared_list::SharedList;
pub use waiter::Waiter;
