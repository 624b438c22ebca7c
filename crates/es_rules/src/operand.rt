//! The values that a command read: how many there are, and which have to be objects, or to be held weakly.

ghost use Rattle.std.specs.Prelude.{◌≡◌, ◌∷◌, [], length, Some, Ok, Err, true, false, IfOk, IfErr};
ghost use Rattle.es_value.specs.Values.{is_held_weakly, is_same};
ghost use Rattle.es_event.specs.Rules.{of_token};
ghost use Rattle.es_event.specs.Identities.{object_of};
ghost use Rattle.es_rules.specs.Completion.{object_or_refusal};

use es_event::Refusal;
use es_value::{Id, Value, can_be_held_weakly, same_value};

/// The value that a command read, where it read one.
pub fn one(values: &[Value]) -> &Value
    requires { length values.now ≡ 1 }
    ensures { values.now ≡ result.now ∷ [] }
{
    &values[0]
}

/// The values that a command read, where it read two.
pub fn two(values: &[Value]) -> (&Value, &Value)
    requires { length values.now ≡ 2 }
    ensures { values.now ≡ result.0.now ∷ result.1.now ∷ [] }
{
    (&values[0], &values[1])
}

/// The values that a command read, where it read three.
pub fn three(values: &[Value]) -> (&Value, &Value, &Value)
    requires { length values.now ≡ 3 }
    ensures { values.now ≡ result.0.now ∷ result.1.now ∷ result.2.now ∷ [] }
{
    (&values[0], &values[1], &values[2])
}

/// The values that a command read, where it read four.
pub fn four(values: &[Value]) -> (&Value, &Value, &Value, &Value)
    requires { length values.now ≡ 4 }
    ensures { values.now ≡ result.0.now ∷ result.1.now ∷ result.2.now ∷ result.3.now ∷ [] }
{
    (&values[0], &values[1], &values[2], &values[3])
}

/// The object that the value is, or the refusal of a value that is none.
pub fn object_in(value: &Value) -> Result<Id, Refusal>
    ensures { result ≡ object_or_refusal (object_of value.now) }
{
    match value {
        Value::Object(object) => Ok(*object),
        _ => Err(Refusal::NotAnObject),
    }
}

/// Refuses a value that can't be held weakly (CanBeHeldWeakly).
pub fn held_weakly(value: &Value) -> Result<(), Refusal>
    ensures ok { IfOk result (λ _. is_held_weakly value.now ≡ true) }
    ensures err { IfErr result (λ code. (code ≡ Refusal.NotHeldWeakly) × (is_held_weakly value.now ≡ false)) }
{
    if can_be_held_weakly(value) {
        Ok(())
    } else {
        Err(Refusal::NotHeldWeakly)
    }
}

/// Refuses a token that can't be held weakly; undefined is the empty token
/// (FinalizationRegistry.prototype.register).
pub fn token(value: &Value) -> Result<(), Refusal>
    ensures ok { IfOk result (λ _. (of_token value.now).0 ≡ true) }
    ensures err { IfErr result (λ code. (code ≡ Refusal.NotHeldWeakly) × ((of_token value.now).0 ≡ false)) }
{
    if same_value(value, &Value::Undefined) || can_be_held_weakly(value) {
        Ok(())
    } else {
        Err(Refusal::NotHeldWeakly)
    }
}

/// Refuses a held value that is the target (FinalizationRegistry.prototype.register).
pub fn other_than(target: &Value, held: &Value) -> Result<(), Refusal>
    ensures ok { IfOk result (λ _. is_same target.now held.now ≡ false) }
    ensures err { IfErr result (λ code. (code ≡ Refusal.SameTargetAndHeld) × (is_same target.now held.now ≡ true)) }
{
    if same_value(target, held) {
        Err(Refusal::SameTargetAndHeld)
    } else {
        Ok(())
    }
}
