//! What is told of the ledger.

ghost use Rattle.std.specs.Prelude.{◌≡◌, ◌++◌, OnOk};
ghost use Rattle.es_turns.specs.Told.{events_told};

use es_event::LedgerEvent;
use es_options::Form;
use es_trace::write_ledger;
use es_trace_json::write_ledger_lines;
use es_value::{Name, NoMemory};
use std::alloc::Global;

/// Tells of these events of the ledger, the oldest first, and of the blocks that they release. Pictures show nothing
/// of them.
pub(crate) fn tell_events(
    alloc: Global,
    form: Form,
    names: &[Name],
    events: &[LedgerEvent],
    blocks: &[u64],
    text: &mut Vec<u8>,
) -> Result<(), NoMemory>
    ensures { OnOk result (text.new.items ≡ text.old.items ++ events_told form names.now events.now blocks.now) }
{
    match form {
        Form::Rows => tell_rows(alloc, names, events, blocks, text),
        Form::Lines => tell_lines(names, events, blocks, text),
        Form::Pictures => Ok(()),
    }
}

fn tell_rows(
    alloc: Global,
    names: &[Name],
    events: &[LedgerEvent],
    blocks: &[u64],
    text: &mut Vec<u8>,
) -> Result<(), NoMemory>
    ensures { OnOk result (text.new.items ≡ text.old.items ++ events_told Form.Rows names.now events.now blocks.now) }
{
    if events.is_empty() && blocks.is_empty() {
        return Ok(());
    }
    match write_ledger(alloc, names, events, blocks, text) {
        Ok(()) => Ok(()),
        Err(_) => Err(NoMemory),
    }
}

fn tell_lines(
    names: &[Name],
    events: &[LedgerEvent],
    blocks: &[u64],
    text: &mut Vec<u8>,
) -> Result<(), NoMemory>
    ensures { OnOk result (text.new.items ≡ text.old.items ++ events_told Form.Lines names.now events.now blocks.now) }
{
    match write_ledger_lines(names, events, blocks, text) {
        Ok(()) => Ok(()),
        Err(_) => Err(NoMemory),
    }
}
