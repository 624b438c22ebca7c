//! What is wrong with a command: its word, the number of its operands, or one of these.

ghost use Rattle.std.specs.Prelude.{◌≡◌, ◌++◌, codes, option_map, option_and_then, string_bytes, unwrap_or, IfOk};
ghost use Rattle.std.specs.Str.{chars};
ghost use Rattle.serde_json.specs.View.{view, items_view, number_view};
ghost use Rattle.serde_json.specs.Events.{items_len};
ghost use Rattle.serde_json.specs.Find.{get, as_number, as_i64};
ghost use Rattle.es_value.specs.Spelling.{is_text_byte};
ghost use Rattle.es_reading.specs.Versions.{version_of};
ghost use Rattle.es_explain.specs.Words.{table, letters_in};
ghost use Rattle.es_explain.specs.Causes.{advice, caught_sentence, command_sentence, ill_number, ill_text, ill_words, inside, is_misnamed, is_negative, is_of_three, meant, misfit, misnamed, named_text, no_name as no_name_said, no_word, operand_text, operands_here, operands_sentence, outside, tried_sentence, try_takes as try_takes_said, type_text, unknown_name, version_in, wrong_count, wrong_operand};
ghost use Rattle.es_explain.specs.Coded.{type_of, types_of, wrong_of};

use crate::kinds::{Kind, kinds_of};
use crate::names::{no_agent, no_callback, no_name, text_of};
use crate::spelling::{Alphabet, first_other, spells_name};
use crate::text::{quoted, quoted_letter, value_text};
use crate::words::{letters_of, nearest};
use crate::wrong::{Wrong, first_wrong};
use es_reading::{FaultCode, Version, is_try, modification_named};
use es_value::{LONGEST_TEXT, MOST_WORDS};
use serde_json::{Number, Value};
use std::alloc::{AllocError, Global};

/// What is wrong inside a command, which this part of a plan's value is, of an agent.
pub(crate) fn inside(
    alloc: Global,
    code: FaultCode,
    plan: &Value,
    agent: usize,
    part: &Value,
) -> Result<String, AllocError>
    ensures { IfOk result (λ s. string_bytes s ≡ inside code (view plan.now) agent (view part.now)) }
{
    match part {
        Value::Array(parts) => match parts.as_slice() {
            [Value::String(word), operands @ ..] => {
                if is_try(version_in(plan), word.as_str()) {
                    tried_sentence(alloc, code, plan, agent, operands)
                } else {
                    command_sentence(alloc, code, plan, agent, word.as_str(), operands)
                }
            }
            _ => Ok(String::new(alloc)),
        },
        _ => Ok(String::new(alloc)),
    }
}

/// What is wrong behind `try`.
fn tried_sentence(
    alloc: Global,
    code: FaultCode,
    plan: &Value,
    agent: usize,
    operands: &[Value],
) -> Result<String, AllocError>
    ensures { IfOk result (λ s. string_bytes s ≡ tried_sentence code (view plan.now) agent (items_view operands.now)) }
{
    match operands {
        [Value::String(to), command @ ..] => {
            caught_sentence(alloc, code, plan, agent, to.as_str(), command)
        }
        _ => try_takes(alloc),
    }
}

/// The same, behind its variable.
fn caught_sentence(
    alloc: Global,
    code: FaultCode,
    plan: &Value,
    agent: usize,
    to: &str,
    command: &[Value],
) -> Result<String, AllocError>
    ensures { IfOk result (λ s. string_bytes s ≡ caught_sentence code (view plan.now) agent to.now (items_view command.now)) }
{
    match command {
        [Value::String(word), operands @ ..] => {
            if is_misnamed(code, to) {
                return misnamed_variable(alloc, to);
            }
            command_sentence(alloc, code, plan, agent, word.as_str(), operands)
        }
        _ => try_takes(alloc),
    }
}

fn misnamed_variable(alloc: Global, to: &str) -> Result<String, AllocError>
    ensures { IfOk result (λ s. string_bytes s ≡ codes "The variable of try is a name, and " ++ no_name_said to.now) }
{
    let why = no_name(alloc, to)?;
    format!(in alloc; "The variable of try is a name, and {why}")
}

fn try_takes(alloc: Global) -> Result<String, AllocError>
    ensures { IfOk result (λ s. string_bytes s ≡ try_takes_said) }
{
    String::from_str(
        alloc,
        "try takes a variable, and then the word of a command and its operands.",
    )
}

/// Whether the variable of `try` has the fault.
fn is_misnamed(code: FaultCode, to: &str) -> bool
    ensures { result ≡ is_misnamed code to.now }
{
    matches!(code, FaultCode::Name) && !spells_name(to)
}

fn command_sentence(
    alloc: Global,
    code: FaultCode,
    plan: &Value,
    agent: usize,
    word: &str,
    operands: &[Value],
) -> Result<String, AllocError>
    ensures { IfOk result (λ s. string_bytes s
        ≡ command_sentence code (view plan.now) agent word.now (items_view operands.now)) }
{
    match code {
        FaultCode::Collection => {
            format!(in alloc; "{word} can't stand in a callback: collect in a job.")
        }
        _ => match kinds_of(version_in(plan), word, count_of(operands)) {
            Some(kinds) => operands_sentence(alloc, code, plan, agent, word, kinds, operands),
            None => no_word(alloc, word),
        },
    }
}

#[tactic(auto, using(crate::proofs::Counts::length_types))]
fn operands_sentence(
    alloc: Global,
    code: FaultCode,
    plan: &Value,
    agent: usize,
    word: &str,
    kinds: &[Kind],
    operands: &[Value],
) -> Result<String, AllocError>
    ensures { IfOk result (λ s. string_bytes s
        ≡ operands_sentence code (view plan.now) agent word.now (types_of kinds.now) (items_view operands.now)) }
{
    let count = count_of(operands);
    if count != kinds.len() {
        return wrong_count(alloc, word, count);
    }
    match first_wrong(code, kinds, operands) {
        Some(wrong) => wrong_operand(alloc, code, plan, agent, word, wrong),
        None => Ok(String::new(alloc)),
    }
}

/// How many values there are.
pub(crate) fn count_of(values: &[Value]) -> usize
    ensures { result ≡ items_len (items_view values.now) }
{
    values.len()
}

fn wrong_operand(
    alloc: Global,
    code: FaultCode,
    plan: &Value,
    agent: usize,
    word: &str,
    wrong: Wrong<'_>,
) -> Result<String, AllocError>
    ensures { IfOk result (λ s. string_bytes s
        ≡ wrong_operand code (view plan.now) agent word.now (wrong_of wrong.entry)) }
{
    match code {
        FaultCode::Operands => misfit(alloc, word, wrong),
        FaultCode::Name => misnamed(alloc, word, wrong),
        FaultCode::Unknown => {
            unknown_name(alloc, plan, agent, wrong.kind, text_of(Some(wrong.operand)))
        }
        FaultCode::Profile => {
            let operand = operand_text(alloc, word, wrong.number)?;
            let outside = outside(alloc, wrong.operand)?;
            format!(in alloc; "{operand}{outside}")
        }
        FaultCode::Limit => ill_words(alloc, wrong.operand),
        _ => Ok(String::new(alloc)),
    }
}

/// The version that a plan's value says; the first where it says none.
fn version_in(plan: &Value) -> Version
    ensures { result ≡ version_in (view plan.now) }
{
    match number_in(plan) {
        Some(number) => version_numbered(number),
        None => Version::One,
    }
}

fn number_in(plan: &Value) -> Option<i64>
    ensures { result ≡ option_and_then as_i64 (option_and_then as_number (get (codes "version") (view plan.now))) }
{
    plan.get("version").and_then(Value::as_i64)
}

fn version_numbered(number: i64) -> Version
    ensures { result ≡ unwrap_or (version_of (Some number)) Version.One }
{
    match number {
        2 => Version::Two,
        3 => Version::Three,
        _ => Version::One,
    }
}

/// That there is no such command, and which one may be meant.
fn no_word(alloc: Global, word: &str) -> Result<String, AllocError>
    ensures { IfOk result (λ s. string_bytes s ≡ no_word word.now) }
{
    if word == "collectlater" {
        return String::from_str(alloc, "collectlater is a command of version 2.");
    }
    if word == "try" {
        return String::from_str(
            alloc,
            "try stands before a command, once, in plans of version 3.",
        );
    }
    if is_of_three(word) {
        return format!(in alloc; "{word} is a command of version 3.");
    }
    let shown = quoted(alloc, word)?;
    let meant = meant(alloc, nearest(alloc, word)?)?;
    format!(in alloc; "There is no command {shown}.{meant}")
}

/// Whether a command came with version 3.
fn is_of_three(word: &str) -> bool
    ensures { result ≡ is_of_three word.now }
{
    modification_named(word).is_some()
        || word == "compareexchange"
        || word == "wait"
        || word == "notify"
}

fn meant(alloc: Global, near: Option<&str>) -> Result<String, AllocError>
    ensures { IfOk result (λ s. string_bytes s ≡ meant (option_map (λ w. w.now) near.entry)) }
{
    match near {
        Some(word) => format!(in alloc; " Did you mean {word}?"),
        None => Ok(String::new(alloc)),
    }
}

/// That a command takes another number of operands.
fn wrong_count(alloc: Global, word: &str, count: usize) -> Result<String, AllocError>
    ensures { IfOk result (λ s. string_bytes s ≡ wrong_count word.now count) }
{
    let letters = letters_of(word);
    let here = operands_here(alloc, count)?;
    format!(in alloc; "{word} takes {letters}, and here {here}.")
}

fn operands_here(alloc: Global, count: usize) -> Result<String, AllocError>
    ensures { IfOk result (λ s. string_bytes s ≡ operands_here count) }
{
    if count == 0 {
        return String::from_str(alloc, "are no operands");
    }
    if count == 1 {
        return String::from_str(alloc, "is 1 operand");
    }
    format!(in alloc; "are {count} operands")
}

/// That an operand is of another JSON kind.
fn misfit(alloc: Global, word: &str, wrong: Wrong<'_>) -> Result<String, AllocError>
    ensures { IfOk result (λ s. string_bytes s ≡ misfit word.now (wrong_of wrong.entry)) }
{
    let operand = operand_text(alloc, word, wrong.number)?;
    let kind = type_text(wrong.kind);
    let found = value_text(alloc, wrong.operand)?;
    format!(in alloc; "{operand} is {kind}, and here stands {found}.")
}

fn operand_text(alloc: Global, word: &str, number: usize) -> Result<String, AllocError>
    ensures { IfOk result (λ s. string_bytes s ≡ operand_text word.now number) }
{
    format!(in alloc; "Operand {number} of {word}")
}

fn type_text(kind: Kind) -> &'static str
    ensures { result.now ≡ type_text (type_of kind) }
{
    match kind {
        Kind::Name => "a name",
        Kind::Literal => "null, true, false, a number or a text",
        Kind::Text => "a text",
        Kind::Callback => "the name of a callback",
        Kind::Agent => "the name of an agent",
        Kind::Whole => "a number",
        Kind::Amount => "a name or a number",
        Kind::Words => "a number",
    }
}

/// That an operand is no name.
fn misnamed(alloc: Global, word: &str, wrong: Wrong<'_>) -> Result<String, AllocError>
    ensures { IfOk result (λ s. string_bytes s ≡ misnamed word.now (wrong_of wrong.entry)) }
{
    let operand = operand_text(alloc, word, wrong.number)?;
    let why = no_name(alloc, text_of(Some(wrong.operand)))?;
    let advice = advice(word);
    let kind = named_text(wrong.kind);
    format!(in alloc; "{operand} is {kind}, and {why}{advice}")
}

/// What stands in the place of a name.
fn named_text(kind: Kind) -> &'static str
    ensures { result.now ≡ named_text (type_of kind) }
{
    match kind {
        Kind::Amount => "a name or a number",
        _ => "a name",
    }
}

/// What helps where a text stands in the place of a variable.
fn advice(word: &str) -> &'static str
    ensures { result.now ≡ advice word.now }
{
    if word == "say" {
        return " A text is said by a variable that let gave it.";
    }
    ""
}

/// That no callback, or no other agent, has a name.
fn unknown_name(
    alloc: Global,
    plan: &Value,
    agent: usize,
    kind: Kind,
    name: &str,
) -> Result<String, AllocError>
    ensures { IfOk result (λ s. string_bytes s ≡ unknown_name (view plan.now) agent (type_of kind) name.now) }
{
    match kind {
        Kind::Callback => no_callback(alloc, plan, agent, name),
        _ => no_agent(alloc, "post to", plan, agent, name),
    }
}

/// Why a text or a number is outside the profile.
fn outside(alloc: Global, value: &Value) -> Result<String, AllocError>
    ensures { IfOk result (λ s. string_bytes s ≡ outside (view value.now)) }
{
    match value {
        Value::String(text) => {
            ill_text(
                alloc,
                first_other(Alphabet::Texts, text.as_str()),
                text.as_str(),
            )
        }
        Value::Number(number) => String::from_str(alloc, ill_number(number)),
        _ => Ok(String::new(alloc)),
    }
}

fn ill_number(number: &Number) -> &'static str
    ensures { result.now ≡ ill_number (number_view number.now) }
{
    if number.is_f64() {
        return " has a point or an exponent, is -0, or is too large: a number is whole, from -9007199254740991 to 9007199254740991.";
    }
    " is not from -9007199254740991 to 9007199254740991."
}

fn ill_text(alloc: Global, other: Option<char>, text: &str) -> Result<String, AllocError>
    ensures { IfOk result (λ s. string_bytes s ≡ ill_text other text.now) }
{
    match other {
        Some(letter) => {
            let letter = quoted_letter(alloc, letter)?;
            format!(in alloc;
                " has {letter}: a text has the letters from the space to ~, without \" and \\."
            )
        }
        None => {
            let length = text.len();
            format!(in alloc; " has {length} letters, and a text has at most {LONGEST_TEXT}.")
        }
    }
}

/// Why no buffer has so many words.
fn ill_words(alloc: Global, value: &Value) -> Result<String, AllocError>
    ensures { IfOk result (λ s. string_bytes s ≡ ill_words (view value.now)) }
{
    match value {
        Value::Number(number) if is_negative(number) => {
            String::from_str(alloc, "A buffer can't have fewer than 0 words.")
        }
        Value::Number(_) => format!(in alloc; "A buffer has at most {MOST_WORDS} words."),
        _ => Ok(String::new(alloc)),
    }
}

fn is_negative(number: &Number) -> bool
    ensures { result ≡ is_negative (number_view number.now) }
{
    !number.is_u64() && number.is_i64()
}
