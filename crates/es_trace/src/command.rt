//! A command as its plan has it, in words or as JSON.

ghost use Rattle.std.specs.Prelude.{◌≡◌, codes, OnOk};
ghost use Rattle.std.specs.Io.KnownBytes.{Appends};
ghost use Rattle.es_trace.specs.Commands.{access_begun, access_text, begun, callback_name as callback_said, name_at as name_said, named, one, operand as operand_said, plain_text, registry_text, shared_text, weak_text};

use crate::naming::{callback_name, name_at};
use crate::style::Style;
use crate::words::{
    write_count, write_literal, write_name, write_named, write_number, write_one, write_quoted,
    write_three, write_token, write_two, write_word,
};
use es_event::{AgentPlan, Atomic, Command, Operand, Operation};
use es_value::Name;
use std::io;
use std::io::Write;

/// Writes a command of an agent with this plan: its word and its operands, in words or as JSON. Agents and
/// callbacks have their names; `names` are those of all agents, in the plan's order. The bracket that ends a
/// JSON array is left to the caller.
///
/// It takes no memory. Where the writer fails, it answers that error and writes nothing more.
pub fn write_command<W: Write>(
    style: Style,
    command: &Command,
    names: &[Name],
    plan: &AgentPlan,
    writer: &mut W,
) -> Result<(), io::Error>
    ensures { OnOk result (Appends (W.contents writer.old) (W.contents writer.new) (begun style names.now plan.now command.now)) }
{
    match command {
        Command::FinalizationRegistry { to, callback } => {
            write_one(style, "registry", to, writer)?;
            write_callback(style, plan, *callback, writer)
        }
        Command::Post { receiver, from } => {
            write_post(style, names, *receiver, writer)?;
            write_name(style, from, writer)
        }
        _ => write_plain(style, command, writer),
    }
}

fn write_callback<W: Write>(
    style: Style,
    plan: &AgentPlan,
    callback: usize,
    writer: &mut W,
) -> Result<(), io::Error>
    ensures { OnOk result (Appends (W.contents writer.old) (W.contents writer.new) (named style (callback_said plan.now callback))) }
{
    write_named(style, callback_name(plan, callback), writer)
}

fn write_post<W: Write>(
    style: Style,
    names: &[Name],
    receiver: usize,
    writer: &mut W,
) -> Result<(), io::Error>
    ensures { OnOk result (Appends (W.contents writer.old) (W.contents writer.new) (one style (codes "post") (name_said names.now receiver))) }
{
    write_word(style, "post", writer)?;
    write_named(style, name_at(names, receiver), writer)
}

/// Those of values, variables, objects and collections, and then the others.
fn write_plain<W: Write>(style: Style, command: &Command, writer: &mut W) -> Result<(), io::Error>
    ensures { OnOk result (Appends (W.contents writer.old) (W.contents writer.new) (plain_text style command.now)) }
{
    match command {
        Command::Let { to, literal } => {
            write_one(style, "let", to, writer)?;
            write_literal(style, literal, writer)
        }
        Command::New { to } => write_one(style, "new", to, writer),
        Command::Symbol { to } => write_one(style, "symbol", to, writer),
        Command::SymbolFor { to, text } => {
            write_one(style, "symbolfor", to, writer)?;
            write_quoted(style, text, writer)
        }
        Command::Copy { to, from } => write_two(style, "copy", to, from, writer),
        Command::Same { to, left, right } => write_three(style, "same", to, left, right, writer),
        Command::Say { from } => write_one(style, "say", from, writer),
        Command::Set { object, key, from } => write_three(style, "set", object, key, from, writer),
        Command::Get { to, object, key } => write_three(style, "get", to, object, key, writer),
        Command::Delete { to, object, key } => write_three(
            style, "delete", to, object, key, writer,
        ),
        Command::Keys { object } => write_one(style, "keys", object, writer),
        Command::Collect => write_word(style, "collect", writer),
        Command::CollectLater => write_word(style, "collectlater", writer),
        _ => write_weak(style, command, writer),
    }
}

/// Those of WeakRefs, WeakMaps and WeakSets, and then the others.
fn write_weak<W: Write>(style: Style, command: &Command, writer: &mut W) -> Result<(), io::Error>
    ensures { OnOk result (Appends (W.contents writer.old) (W.contents writer.new) (weak_text style command.now)) }
{
    match command {
        Command::WeakRef { to, target } => write_two(style, "weakref", to, target, writer),
        Command::Deref { to, weakref } => write_two(style, "deref", to, weakref, writer),
        Command::WeakMap { to } => write_one(style, "weakmap", to, writer),
        Command::WeakMapSet { map, key, from } => write_three(
            style, "wmset", map, key, from, writer,
        ),
        Command::WeakMapGet { to, map, key } => write_three(style, "wmget", to, map, key, writer),
        Command::WeakMapHas { to, map, key } => write_three(style, "wmhas", to, map, key, writer),
        Command::WeakMapDelete { to, map, key } => write_three(
            style, "wmdelete", to, map, key, writer,
        ),
        Command::WeakSet { to } => write_one(style, "weakset", to, writer),
        Command::WeakSetAdd { set, member } => write_two(style, "wsadd", set, member, writer),
        Command::WeakSetHas { to, set, member } => write_three(
            style, "wshas", to, set, member, writer,
        ),
        Command::WeakSetDelete { to, set, member } => {
            write_three(style, "wsdelete", to, set, member, writer)
        }
        _ => write_shared(style, command, writer),
    }
}

/// Those of buffers, and then those of FinalizationRegistries.
fn write_shared<W: Write>(style: Style, command: &Command, writer: &mut W) -> Result<(), io::Error>
    ensures { OnOk result (Appends (W.contents writer.old) (W.contents writer.new) (shared_text style command.now)) }
{
    match command {
        Command::SharedArrayBuffer { to, words } => {
            write_one(style, "buffer", to, writer)?;
            write_count(style, *words, writer)
        }
        Command::Length { to, buffer } => write_two(style, "length", to, buffer, writer),
        Command::SameBlock { to, left, right } => write_three(
            style,
            "sameblock",
            to,
            left,
            right,
            writer,
        ),
        Command::Atomic(atomic) => write_access(style, atomic, writer),
        _ => write_registry(style, command, writer),
    }
}

/// One on a word of a buffer's block.
fn write_access<W: Write>(style: Style, atomic: &Atomic, writer: &mut W) -> Result<(), io::Error>
    ensures { OnOk result (Appends (W.contents writer.old) (W.contents writer.new) (access_text style atomic.now)) }
{
    let buffer = atomic.buffer();
    let operation = atomic.operation();
    write_begun(style, buffer, operation, writer)?;
    write_operand(style, atomic.index(), writer)?;
    match operation {
        Operation::Load { .. } | Operation::Notify { count: None, .. } => Ok(()),
        Operation::Store { number }
        | Operation::Modify { number, .. }
        | Operation::Wait { number, .. }
        | Operation::Notify {
            count: Some(number),
            ..
        } => write_operand(style, number, writer),
        Operation::CompareExchange {
            expected,
            replacement,
            ..
        } => {
            write_operand(style, expected, writer)?;
            write_operand(style, replacement, writer)
        }
    }
}

/// What stands before the index of a command on a word.
fn write_begun<W: Write>(
    style: Style,
    buffer: &Name,
    operation: &Operation,
    writer: &mut W,
) -> Result<(), io::Error>
    ensures { OnOk result (Appends (W.contents writer.old) (W.contents writer.new) (access_begun style buffer.now operation.now)) }
{
    match operation {
        Operation::Load { to } => write_two(style, "load", to, buffer, writer),
        Operation::Store { .. } => write_one(style, "store", buffer, writer),
        Operation::Modify { to, how, .. } => write_two(style, how.word(), to, buffer, writer),
        Operation::CompareExchange { to, .. } => write_two(
            style,
            "compareexchange",
            to,
            buffer,
            writer,
        ),
        Operation::Wait { to, .. } => write_two(style, "wait", to, buffer, writer),
        Operation::Notify { to, .. } => write_two(style, "notify", to, buffer, writer),
    }
}

/// An operand that is a number, or the variable whose value is taken.
fn write_operand<W: Write>(style: Style, operand: &Operand, writer: &mut W) -> Result<(), io::Error>
    ensures { OnOk result (Appends (W.contents writer.old) (W.contents writer.new) (operand_said style operand.now)) }
{
    match operand {
        Operand::Number(number) => write_number(style, *number, writer),
        Operand::Variable(name) => write_name(style, name, writer),
    }
}

/// Those of FinalizationRegistries, but for the one that makes them.
fn write_registry<W: Write>(
    style: Style,
    command: &Command,
    writer: &mut W,
) -> Result<(), io::Error>
    ensures { OnOk result (Appends (W.contents writer.old) (W.contents writer.new) (registry_text style command.now)) }
{
    match command {
        Command::Register {
            registry,
            target,
            held,
            token,
        } => {
            write_three(style, "register", registry, target, held, writer)?;
            write_token(style, token, writer)
        }
        Command::Unregister {
            to,
            registry,
            token,
        } => write_three(style, "unregister", to, registry, token, writer),
        _ => Ok(()),
    }
}
