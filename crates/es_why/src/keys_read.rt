//! The keys of an object, read once for all of its ways.

ghost use Rattle.std.specs.Prelude.{◌≡◌, false, Some, None, OnOk};
ghost use Rattle.es_event.specs.Identities.{is_gone};
ghost use Rattle.es_event.specs.Properties.{keys as keys_said};
ghost use Rattle.es_why.specs.Chosen.{AreKeysOf};
ghost use Rattle.es_why.specs.Flags.{is_this};

use es_record::AgentRecord;
use es_value::{Id, Name, NoMemory};
use std::alloc::Global;

/// The keys of the object that was asked for last. The ways of one object's properties stand together,
/// so its keys are read once for them all.
#[derive(Drop)]
pub(crate) struct KeysRead {
    pub object: Option<Id>,
    pub keys: Vec<Name>,
}

impl KeysRead {
    /// Of no object yet.
    pub(crate) fn new(alloc: Global) -> KeysRead
        ensures { result.object ≡ None }
    {
        KeysRead {
            object: None,
            keys: Vec::new(alloc),
        }
    }

    /// Reads the keys of the object, if they are not read.
    pub(crate) fn read(&mut self, agent: &AgentRecord, object: Id) -> Result<(), NoMemory>
        requires here { is_gone agent.now.history object ≡ false }
        requires keys { AreKeysOf agent.now.history self.old.object self.old.keys.items }
        ensures keys { OnOk result (self.new.keys.items ≡ keys_said agent.now.history object) }
        ensures object { OnOk result (self.new.object ≡ Some object) }
    {
        if self.is_of(object) {
            return Ok(());
        }
        self.keys = agent.keys_of_object(object)?;
        self.object = Some(object);
        Ok(())
    }

    /// Whether the keys are those of the object.
    fn is_of(&self, object: Id) -> bool
        ensures { result ≡ is_this self.now.object object }
    {
        self.object == Some(object)
    }
}
