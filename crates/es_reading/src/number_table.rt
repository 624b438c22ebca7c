//! Tables of numbers by name: of the callbacks of an agent, and of the agents of a plan.

ghost use Rattle.std.specs.Prelude.{◌≡◌, ◌≤◌, List, ℕ, Some, None, IfOk, OnOk, option_map, if◌then◌else◌};
ghost use Rattle.std.specs.Str.{bytes_eq};
ghost use Rattle.serde_json.specs.View.{view, items_view, members_view};
ghost use Rattle.es_reading.specs.Parts.{members_in};
ghost use Rattle.es_reading.specs.Scope.{number_from, agent_from, number_in};
ghost use Rattle.es_reading.specs.Reading.{numbered, or_else};

use crate::parts::text;
use es_value::{Name, NoMemory};
use serde_json::{Map, Value};
use std::alloc::Global;
use std::collections::HashMap;

/// Numbers by name.
#[derive(Drop)]
pub struct NumberTable {
    by_name: HashMap<String, usize>,
}

impl NumberTable {
    /// No name.
    #[tactic(auto, unfolding(crate::specs::Reading::numbered))]
    fn new(alloc: Global) -> Self
        ensures { (n : List ℕ) → numbered result n ≡ None }
    {
        NumberTable {
            by_name: HashMap::new(alloc),
        }
    }

    /// The number under this name.
    #[tactic(auto, unfolding(crate::specs::Reading::numbered))]
    pub(crate) fn number(&self, name: &str) -> Option<usize>
        ensures { result ≡ numbered self.now name.now }
    {
        self.by_name.get(name).copied()
    }

    /// Adds a name with its number, unless it is there.
    fn add(&mut self, alloc: Global, name: &str, number: usize) -> Result<(), NoMemory>
        ensures { OnOk result ((n : List ℕ) → numbered self.new n
            ≡ or_else (numbered self.old n) (if bytes_eq name.now n then Some number else None)) }
    {
        if self.by_name.contains_key(name) {
            return Ok(());
        }
        let key = String::from_str(alloc, name)?;
        self.by_name.insert(key, number)?;
        Ok(())
    }
}

/// The numbers of the members of an object, counted from 1, and of no other value.
pub(crate) fn callback_numbers(
    alloc: Global,
    value: Option<&Value>,
) -> Result<NumberTable, NoMemory>
    ensures { IfOk result (λ numbers. numbered numbers
        ≡ number_from 1 (members_in (option_map (λ v. view v.now) value.entry))) }
{
    match value {
        Some(Value::Object(members)) => numbers_in(alloc, members),
        _ => Ok(NumberTable::new(alloc)),
    }
}

fn numbers_in(alloc: Global, members: &Map<String, Value>) -> Result<NumberTable, NoMemory>
    ensures { IfOk result (λ numbers. numbered numbers ≡ number_from 1 (members_view members.now.entries)) }
{
    let mut numbers = NumberTable::new(alloc);
    let mut number = 0;
    for (name, _) in members.iter() {
        number += 1;
        numbers.add(alloc, name.as_str(), number)?;
    }
    Ok(numbers)
}

/// The numbers of all agents, counted from 0.
pub(crate) fn agent_numbers(alloc: Global, agents: &[Value]) -> Result<NumberTable, NoMemory>
    ensures { IfOk result (λ numbers. numbered numbers ≡ agent_from 0 (items_view agents.now)) }
{
    let mut numbers = NumberTable::new(alloc);
    for (index, agent) in agents.iter().enumerate() {
        numbers.add(alloc, text(agent.get("name")), index)?;
    }
    Ok(numbers)
}

/// The numbers of names in order, the first of which has this number.
pub fn numbers_of(alloc: Global, names: &[Name], first: usize) -> Result<NumberTable, NoMemory>
    requires { first ≤ 1 }
    ensures { IfOk result (λ numbers. numbered numbers ≡ number_in first names.now) }
{
    let mut numbers = NumberTable::new(alloc);
    for (index, name) in names.iter().enumerate() {
        numbers.add(alloc, name.as_str(), first + index)?;
    }
    Ok(numbers)
}
