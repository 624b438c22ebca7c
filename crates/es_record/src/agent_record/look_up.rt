//! What an agent's history says of one variable or one object, read from the tables.

ghost use Rattle.std.specs.Prelude.{◌≡◌, ◌≤◌, ◌+◌, ◌∷◌, [], true, false, Some, reverse, IfOk, IfErr, OnOk};
ghost use Rattle.std.specs.Option.{option_copied, option_map_or, option_and_then};
ghost use Rattle.es_value.specs.Limits.{most_identities};
ghost use Rattle.es_value.specs.Values.{identity};
ghost use Rattle.es_event.specs.Commands.{reads};
ghost use Rattle.es_event.specs.Identities.{made, gone, is_gone, has_identity_in, kind, object_of};
ghost use Rattle.es_event.specs.Jobs.{receivers};
ghost use Rattle.es_event.specs.Variables.{var};
ghost use Rattle.es_event.specs.Properties.{prop, keys as keys_said};
ghost use Rattle.es_event.specs.WeakRefs.{target as target_said};
ghost use Rattle.es_event.specs.Ephemerons.{entry as entry_said, is_member};
ghost use Rattle.es_event.specs.Rules.{kind_of};
ghost use Rattle.es_event.specs.Legal.{values_of};
ghost use Rattle.es_event.specs.Sharing.{row_at, blocks_opened, messages_posted};
ghost use Rattle.es_tables.specs.Tags.{is_tag};
ghost use Rattle.es_record.specs.AgentView.{AreThere};
ghost use Rattle.es_record.specs.Tagged.{is_of};

use super::AgentRecord;
use es_event::{AgentPlan, Answer, Command, Done, OperandNames, Refusal, Row, Sequence};
use es_tables::Tag;
use es_value::{Id, Name, NoMemory, Value};
use std::alloc::Global;

impl AgentRecord {
    /// The allocator of its lists.
    #[inline(always)]
    pub fn alloc(&self) -> Global {
        self.alloc
    }

    /// How many identities it has made.
    pub fn identities(&self) -> u32
        ensures made { result ≡ made self.now.history }
        ensures few { result ≤ most_identities }
        ensures next { is_gone self.now.history (made self.now.history + 1) ≡ false }
    {
        self.tables.made() as u32
    }

    /// The identity that comes next.
    pub fn next_identity(&self) -> Id
        ensures said { result ≡ made self.now.history + 1 }
        ensures fresh { is_gone self.now.history result ≡ false }
    {
        Id::of(self.identities() + 1)
    }

    /// How many blocks it opened.
    pub fn blocks_opened(&self) -> usize
        ensures { result ≡ blocks_opened self.now.history }
    {
        self.opened
    }

    /// How many messages it posted.
    pub fn messages_posted(&self) -> usize
        ensures { result ≡ messages_posted self.now.history }
    {
        self.posted
    }

    /// What the ticket of a buffer object named, if it is one, or was one before it was emptied.
    pub fn row(&self, buffer: Id) -> Option<Row>
        ensures { result ≡ row_at self.now.over buffer }
    {
        self.buffers.row(buffer)
    }

    /// Each buffer object that came, emptied ones too, with what its ticket named, the oldest first.
    pub fn buffers(&self) -> &[(Id, Row)]
        ensures { result.now ≡ reverse self.now.over }
    {
        self.buffers.as_slice()
    }

    /// Its plan.
    pub fn plan(&self) -> &AgentPlan
        ensures { result.now ≡ self.now.plan }
    {
        &self.plan
    }

    /// The variable's value where it stands: undefined where nothing was assigned to it. It is not
    /// emptied.
    pub fn value(&self, name: &Name) -> &Value
        ensures said { result.now ≡ var (receivers self.now.plan.jobs) self.now.history name.now }
        ensures there { has_identity_in (gone self.now.history) result.now ≡ false }
    {
        match self.tables.bound(name) {
            Some(value) => value,
            None => &self.unassigned,
        }
    }

    /// A command that is done reads the values of its variables, none of which is emptied. It fails for want of memory
    /// alone; then nothing is said of what it read.
    #[inline(always)]
    pub fn read(&self, command: &Command, done: &mut Done) -> Result<(), NoMemory>
        requires { done.old ≡ (command.now, [], Answer.Nothing) }
        ensures said { OnOk result (done.new ≡ (command.now, values_of (receivers self.now.plan.jobs) self.now.history (reads command.now), Answer.Nothing)) }
        ensures there { OnOk result (AreThere self.now done.new.1) }
    {
        match command.reads() {
            OperandNames::Nothing => Ok(()),
            OperandNames::One(a) => self.read_one(done, a),
            OperandNames::Two(a, b) => self.read_two(done, a, b),
            OperandNames::Three(a, b, c) => self.read_three(done, a, b, c),
            OperandNames::Four(a, b, c, d) => self.read_four(done, a, b, c, d),
        }
    }

    /// The variable's value, which is not emptied.
    fn variable(&self, name: &Name) -> Result<Value, NoMemory>
        ensures said { IfOk result (λ v. v ≡ var (receivers self.now.plan.jobs) self.now.history name.now) }
        ensures there { IfOk result (λ v. has_identity_in (gone self.now.history) v ≡ false) }
    {
        self.tables.variable(name)
    }

    /// The same of one variable. This and those below stand alone, so that a command makes place for no more values than
    /// it reads.
    #[inline(never)]
    fn read_one(&self, done: &mut Done, a: &Name) -> Result<(), NoMemory>
        requires { (done.old.1 ≡ []) × (done.old.2 ≡ Answer.Nothing) }
        ensures said { OnOk result (done.new ≡ (done.old.0, values_of (receivers self.now.plan.jobs) self.now.history (a.now ∷ []), Answer.Nothing)) }
        ensures there { OnOk result (AreThere self.now done.new.1) }
    {
        done.read(self.variable(a)?);
        Ok(())
    }

    /// Of two.
    #[inline(never)]
    fn read_two(&self, done: &mut Done, a: &Name, b: &Name) -> Result<(), NoMemory>
        requires { (done.old.1 ≡ []) × (done.old.2 ≡ Answer.Nothing) }
        ensures said { OnOk result (done.new ≡ (done.old.0, values_of (receivers self.now.plan.jobs) self.now.history (a.now ∷ b.now ∷ []), Answer.Nothing)) }
        ensures there { OnOk result (AreThere self.now done.new.1) }
    {
        done.read(self.variable(a)?);
        done.read(self.variable(b)?);
        Ok(())
    }

    /// Of three.
    #[inline(never)]
    fn read_three(&self, done: &mut Done, a: &Name, b: &Name, c: &Name) -> Result<(), NoMemory>
        requires { (done.old.1 ≡ []) × (done.old.2 ≡ Answer.Nothing) }
        ensures said { OnOk result (done.new ≡ (done.old.0, values_of (receivers self.now.plan.jobs) self.now.history (a.now ∷ b.now ∷ c.now ∷ []), Answer.Nothing)) }
        ensures there { OnOk result (AreThere self.now done.new.1) }
    {
        done.read(self.variable(a)?);
        done.read(self.variable(b)?);
        done.read(self.variable(c)?);
        Ok(())
    }

    /// Of four.
    #[inline(never)]
    fn read_four(
        &self,
        done: &mut Done,
        a: &Name,
        b: &Name,
        c: &Name,
        d: &Name,
    ) -> Result<(), NoMemory>
        requires { (done.old.1 ≡ []) × (done.old.2 ≡ Answer.Nothing) }
        ensures said { OnOk result (done.new ≡ (done.old.0, values_of (receivers self.now.plan.jobs) self.now.history (a.now ∷ b.now ∷ c.now ∷ d.now ∷ []), Answer.Nothing)) }
        ensures there { OnOk result (AreThere self.now done.new.1) }
    {
        let a = self.variable(a)?;
        let b = self.variable(b)?;
        let c = self.variable(c)?;
        let d = self.variable(d)?;
        let values = Vec::from_array(self.alloc, [a, b, c, d])?;
        done.read_all(Sequence::from_vec(values));
        Ok(())
    }

    /// The value under a key of an object, if the object has it (OrdinaryGet).
    pub fn property(&self, object: Id, key: &Name) -> Option<&Value>
        requires { is_gone self.now.history object ≡ false }
        ensures { option_copied result ≡ prop self.now.history object key.now }
    {
        self.tables.property(object, key)
    }

    /// The keys of an object, in order of creation (OrdinaryOwnPropertyKeys). It fails for want of
    /// memory alone.
    pub fn keys_of_object(&self, object: Id) -> Result<Vec<Name>, NoMemory>
        requires { is_gone self.now.history object ≡ false }
        ensures { IfOk result (λ ks. ks.items ≡ keys_said self.now.history object) }
    {
        self.tables.keys(object)
    }

    /// Whether the object is what has this tag: a WeakRef, with a target or emptied, a WeakMap, a WeakSet,
    /// a FinalizationRegistry or a SharedArrayBuffer.
    fn has_tag(&self, object: Id, tag: Tag) -> bool
        requires { is_gone self.now.history object ≡ false }
        ensures { result ≡ is_of tag (kind self.now.history object) }
    {
        is_tag(self.tables.tag(object), tag)
    }

    /// The object with this tag that the value is, or else this refusal (RequireInternalSlot).
    pub fn tagged(&self, value: &Value, tag: Tag, otherwise: Refusal) -> Result<Id, Refusal>
        requires there { has_identity_in (gone self.now.history) value.now ≡ false }
        ensures ok { IfOk result (λ o. (object_of value.now ≡ Some o) × (is_of tag (kind_of self.now.history value.now) ≡ true)) }
        ensures err { IfErr result (λ code. (code ≡ otherwise) × (is_of tag (kind_of self.now.history value.now) ≡ false)) }
    {
        match value {
            Value::Object(object) if self.has_tag(*object, tag) => Ok(*object),
            _ => Err(otherwise),
        }
    }

    /// The target of a WeakRef, if it has not been emptied: the value that was held, an object or a
    /// symbol.
    pub fn target(&self, weakref: Id) -> Option<Value>
        requires { is_gone self.now.history weakref ≡ false }
        ensures { result ≡ target_said self.now.history weakref }
    {
        let target = self.tables.target(weakref)?;
        if self.tables.has(target) {
            Some(Value::Object(target))
        } else {
            Some(Value::Symbol(target))
        }
    }

    /// The value under a key in a WeakMap. What has no identity is no key.
    pub fn entry(&self, map: Id, key: &Value) -> Option<&Value>
        requires { is_gone self.now.history map ≡ false }
        ensures { option_copied result ≡ option_and_then (entry_said self.now.history map) (identity key.now) }
    {
        self.tables.entry(map, key.identity()?)
    }

    /// Whether a value is a member of a WeakSet. What has no identity is none.
    pub fn has_member(&self, set: Id, member: &Value) -> bool
        requires { is_gone self.now.history set ≡ false }
        ensures { result ≡ option_map_or (is_member self.now.history set) (identity member.now) false }
    {
        match member.identity() {
            Some(member) => self.tables.has_member(set, member),
            None => false,
        }
    }
}

/// Whether the tag is the one that is asked for.
fn is_tag(tag: Option<Tag>, asked: Tag) -> bool
    ensures { result ≡ is_tag asked tag }
{
    match asked {
        Tag::WeakRef => matches!(tag, Some(Tag::WeakRef)),
        Tag::WeakMap => matches!(tag, Some(Tag::WeakMap)),
        Tag::WeakSet => matches!(tag, Some(Tag::WeakSet)),
        Tag::FinalizationRegistry => matches!(tag, Some(Tag::FinalizationRegistry)),
        Tag::SharedArrayBuffer => matches!(tag, Some(Tag::SharedArrayBuffer)),
        Tag::Symbol | Tag::Ordinary => false,
    }
}
