//! Commands on words of shared memory.

ghost use Rattle.std.specs.Prelude.{◌≡◌, ◌∷◌, ◌++◌, [], false, IfOk, is_some};
ghost use Rattle.std.specs.Option.{option_copied, option_to_list};
ghost use Rattle.es_event.specs.Access.{edit_of, given_to, is_of_sleep, operands_of, to_uint32 as to_uint32_said, variables_of};
ghost use Rattle.es_event.specs.Numbers.{access_of, count_of, cut, index_of, most_taken as most_taken_said, number_or_0, numbers_of, operand_number, task_of, word_at};
ghost use Rattle.es_event.specs.Reading.{names_of};

use crate::Refusal;
use crate::access::{Access, Change, Edit, Modification, Task, to_uint32};
use crate::command::OperandNames;
use crate::numbers::number_of;
use crate::operand::{Operand, without_first};
use es_value::{MOST_AGENTS, Name, NoMemory, Value};
use std::alloc::Global;
use std::marker::Model;

/// A command on a word of a buffer's block (ECMA-262, The Atomics Object), which contracts see as its parts.
///
/// It takes 8 bytes, and a block of memory for its parts, since no other command has as many.
pub struct Atomic {
    parts: Box<AtomicParts>,
}

impl Drop for Atomic {
    #[inline]
    fn drop(self) {
        let Atomic { parts: _ } = self;
    }
}

/// The parts of a command on a word of shared memory.
#[derive(Drop)]
pub struct AtomicParts {
    /// The variable that has the buffer.
    buffer: Name,
    /// The word's place in the buffer's block, counted from 0.
    index: Operand,
    /// What is done to the word.
    operation: Operation,
}

/// What a command does to a word of shared memory. Numbers are taken modulo 2^32.
#[derive(Drop)]
pub enum Operation {
    /// `load X B I`: assigns the word (Atomics.load).
    Load {
        to: Name,
    },
    /// `store B I N`: writes a number in its place (Atomics.store).
    Store {
        number: Operand,
    },
    /// `add X B I N`, and `sub`, `and`, `or`, `xor`, `exchange`: modifies it by a number, assigns the word that was
    /// there (AtomicReadModifyWrite).
    Modify {
        to: Name,
        how: Modification,
        number: Operand,
    },
    /// `compareexchange X B I N P`: where it is the first number, writes the second in its place; assigns the word
    /// that was there (Atomics.compareExchange).
    CompareExchange {
        to: Name,
        expected: Operand,
        replacement: Operand,
    },
    /// `wait X B I N`: sleeps where the word is the number, until a notify takes it or its time-out passes; assigns how
    /// that ended (Atomics.wait).
    Wait {
        to: Name,
        number: Operand,
    },
    /// `notify X B I` and `notify X B I C`: takes the first that sleep at the word, so many at most; assigns how many they
    /// were (Atomics.notify).
    Notify {
        to: Name,
        count: Option<Operand>,
    },
}

impl Model for Atomic {
    ghost use Rattle.es_event.specs.declared.atomic.AtomicParts.{AtomicParts as Parts};

    ghost Value = { Parts };

    ghost view = { λ a. a.parts.value };
}

impl Atomic {
    /// The command of these parts.
    pub fn new(
        alloc: Global,
        buffer: Name,
        index: Operand,
        operation: Operation,
    ) -> Result<Atomic, NoMemory>
        ensures { IfOk result (λ a. (a.buffer ≡ buffer) × (a.index ≡ index) × (a.operation ≡ operation)) }
    {
        let parts = Box::new(
            alloc,
            AtomicParts {
                buffer,
                index,
                operation,
            },
        )?;
        Ok(Atomic { parts })
    }

    /// The variable that has the buffer.
    pub fn buffer(&self) -> &Name
        ensures { result.now ≡ self.now.buffer }
    {
        &self.parts.buffer
    }

    /// The word's place in the buffer's block, counted from 0.
    pub fn index(&self) -> &Operand
        ensures { result.now ≡ self.now.index }
    {
        &self.parts.index
    }

    /// The variables whose values the command takes, in order: the buffer's, and those of the operands. Most commands
    /// have numbers alone for operands, so these are looked for first.
    #[inline(never)]
    pub(crate) fn reads(&self) -> OperandNames<'_>
        ensures { names_of result ≡ self.now.buffer ∷ variables_of (self.now.index ∷ operands_of self.now.operation) }
    {
        if self.has_variables() {
            self.reads_operands()
        } else {
            OperandNames::One(&self.parts.buffer)
        }
    }

    /// The same, where an operand may be a variable.
    #[inline(never)]
    fn reads_operands(&self) -> OperandNames<'_>
        ensures { names_of result ≡ self.now.buffer ∷ variables_of (self.now.index ∷ operands_of self.now.operation) }
    {
        let (first, second) = self.parts.operation.variables();
        let names = OperandNames::One(&self.parts.buffer).and(self.parts.index.variable());
        names.and(first).and(second)
    }

    /// Whether an operand is a variable.
    fn has_variables(&self) -> bool
        ensures { result ≡ false → variables_of (self.now.index ∷ operands_of self.now.operation) ≡ [] }
    {
        self.parts.index.is_variable() || self.parts.operation.has_variables()
    }

    /// The word's place, where these are the values that the command takes; 0 where one of them is no number.
    #[inline(always)]
    pub fn index_of(&self, values: &[Value]) -> i64
        ensures { result ≡ index_of self.now values.now }
    {
        number_or_0(self.parts.index.number(without_first(values)))
    }

    /// What is done to the word, where these are the values that the command takes.
    #[inline(always)]
    pub fn access_of(&self, values: &[Value]) -> Access
        ensures { result ≡ access_of self.now values.now }
    {
        let (first, second) = self
            .parts
            .operation
            .words(self.parts.index.rest(without_first(values)));
        self.access_by(first, second)
    }

    /// What is done to the word, by these words of its operands.
    #[inline(always)]
    pub fn access_by(&self, first: u32, second: u32) -> Access
        ensures { result ≡ record { edit = edit_of self.now.operation first second; gives_word = is_some (given_to self.now.operation) } }
    {
        let operation = &self.parts.operation;
        Access {
            edit: operation.edit(first, second),
            gives_word: operation.assigns().is_some(),
        }
    }

    /// What is done at the word, where these are the values that the command takes.
    #[inline(always)]
    pub fn task_of(&self, values: &[Value]) -> Task
        ensures { result ≡ task_of self.now values.now }
    {
        match &self.parts.operation {
            Operation::Wait { .. } => {
                let rest = self.parts.index.rest(without_first(values));
                let (word, _) = self.parts.operation.words(rest);
                Task::Sleep(word)
            }
            Operation::Notify { count, .. } => {
                let rest = self.parts.index.rest(without_first(values));
                Task::Notify(most_taken(count.as_ref(), rest))
            }
            _ => Task::Access(self.access_of(values)),
        }
    }

    /// What the command does to the word.
    pub fn operation(&self) -> &Operation
        ensures { result.now ≡ self.now.operation }
    {
        &self.parts.operation
    }
}

/// The number, and 0 where there is none.
#[inline(always)]
fn number_or_0(number: Result<i64, Refusal>) -> i64
    ensures { result ≡ number_or_0 number }
{
    number.unwrap_or(0)
}

impl Operation {
    /// Whether it waits at a word, or notifies those that do (ECMA-262, Atomics.wait and notify); the others read or write
    /// the word alone.
    pub fn is_of_sleep(&self) -> bool
        ensures { result ≡ is_of_sleep self.now }
    {
        match self {
            Operation::Wait { .. } | Operation::Notify { .. } => true,
            Operation::Load { .. }
            | Operation::Store { .. }
            | Operation::Modify { .. }
            | Operation::CompareExchange { .. } => false,
        }
    }

    /// The words of its operands, where these are the values of their variables.
    #[inline(always)]
    fn words(&self, values: &[Value]) -> (u32, u32)
        ensures first { result.0 ≡ word_at 0 (numbers_of (operands_of self.now) values.now) }
        ensures second { result.1 ≡ word_at 1 (numbers_of (operands_of self.now) values.now) }
    {
        match self {
            Operation::Load { .. } | Operation::Notify { count: None, .. } => (0, 0),
            Operation::Store { number }
            | Operation::Modify { number, .. }
            | Operation::Wait { number, .. }
            | Operation::Notify {
                count: Some(number),
                ..
            } => (word_of(number, values), 0),
            Operation::CompareExchange {
                expected,
                replacement,
                ..
            } => (
                word_of(expected, values),
                word_of(replacement, expected.rest(values)),
            ),
        }
    }

    /// What is done to the word, by these words of its operands.
    #[inline(always)]
    fn edit(&self, first: u32, second: u32) -> Edit
        ensures { result ≡ edit_of self.now first second }
    {
        match self {
            Operation::Load { .. } | Operation::Wait { .. } | Operation::Notify { .. } => {
                Edit::Plain(Change::Keep)
            }
            Operation::Store { .. } => Edit::Plain(Change::Write(first)),
            Operation::Modify { how, .. } => Edit::Modify(*how, first),
            Operation::CompareExchange { .. } => Edit::Compare(first, second),
        }
    }

    /// The variable that the word is assigned that was there, if one is.
    #[inline(always)]
    pub fn assigns(&self) -> Option<&Name>
        ensures { option_copied result ≡ given_to self.now }
    {
        match self {
            Operation::Load { to }
            | Operation::Modify { to, .. }
            | Operation::CompareExchange { to, .. }
            | Operation::Wait { to, .. }
            | Operation::Notify { to, .. } => Some(to),
            Operation::Store { .. } => None,
        }
    }

    /// Whether an operand after the index is a variable.
    fn has_variables(&self) -> bool
        ensures { result ≡ false → variables_of (operands_of self.now) ≡ [] }
    {
        match self {
            Operation::Load { .. } | Operation::Notify { count: None, .. } => false,
            Operation::Store { number }
            | Operation::Modify { number, .. }
            | Operation::Wait { number, .. }
            | Operation::Notify {
                count: Some(number),
                ..
            } => number.is_variable(),
            Operation::CompareExchange {
                expected,
                replacement,
                ..
            } => expected.is_variable() || replacement.is_variable(),
        }
    }

    /// The variables of its operands after the index, of which there are two at most.
    fn variables(&self) -> (Option<&Name>, Option<&Name>)
        ensures { option_to_list (option_copied result.0) ++ option_to_list (option_copied result.1) ≡ variables_of (operands_of self.now) }
    {
        match self {
            Operation::Load { .. } | Operation::Notify { count: None, .. } => (None, None),
            Operation::Store { number }
            | Operation::Modify { number, .. }
            | Operation::Wait { number, .. }
            | Operation::Notify {
                count: Some(number),
                ..
            } => (number.variable(), None),
            Operation::CompareExchange {
                expected,
                replacement,
                ..
            } => (expected.variable(), replacement.variable()),
        }
    }
}

/// The word of an operand, where these are the values of the variables from it on.
#[inline(always)]
fn word_of(operand: &Operand, values: &[Value]) -> u32
    ensures { result ≡ to_uint32_said (number_or_0 (operand_number operand.now values.now)) }
{
    to_uint32(number_or_0(operand.number(values)))
}

/// As many agents as a notify can take: all that there can be.
pub const MOST_TAKEN: u32 = MOST_AGENTS as u32;

/// How many agents a notify takes at most, where these are the values of the variables from its count on: all that there
/// can be where it says none (ECMA-262, Atomics.notify).
fn most_taken(count: Option<&Operand>, values: &[Value]) -> u32
    ensures { result ≡ most_taken_said (option_copied count.entry) values.now }
{
    match count {
        Some(Operand::Number(number)) => cut(*number),
        Some(Operand::Variable(_)) => match values.first() {
            Some(value) => count_of(value),
            None => MOST_TAKEN,
        },
        None => MOST_TAKEN,
    }
}

/// How many agents a value counts, where a notify takes it so: all that there can be where it is undefined.
pub fn count_of(value: &Value) -> u32
    ensures { result ≡ count_of value.now }
{
    match value {
        Value::Undefined => MOST_TAKEN,
        _ => cut(number_or_0(number_of(value))),
    }
}

/// The number, from 0 to the most agents that there can be.
pub fn cut(number: i64) -> u32
    ensures { result ≡ cut number }
{
    if number <= 0 {
        0
    } else if number >= i64::from(MOST_TAKEN) {
        MOST_TAKEN
    } else {
        number as u32
    }
}
