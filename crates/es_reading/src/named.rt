//! The table of commands: the word of each, and what its operands make. Their kinds are those of the
//! command's fields.

ghost use Rattle.std.specs.Prelude.{◌≡◌, map};
ghost use Rattle.serde_json.specs.View.{items_of};
ghost use Rattle.serde_json.specs.Events.{items_len};
ghost use Rattle.es_reading.specs.Forms.{form, later_form, weak_form};
ghost use Rattle.es_reading.specs.Reading.{Gives, said, outside_read, form_read};

mod registry;
mod shared;

use crate::fault::{FaultCode, Spot};
use crate::known_names::KnownNames;
use crate::operands::{none, one, three, two};
use crate::part::Seen;
use crate::scope::Scope;
use crate::version::Version;
use crate::{Place, ReadFault};
use es_event::Command;
pub use shared::modification_named;
use shared::shared_command;

/// A command on values, variables or objects, or a collection, and then the others.
pub fn command_named<V: Seen>(
    names: &mut KnownNames,
    scope: &Scope,
    word: &str,
    operands: &[V],
    spot: Spot,
) -> Result<Command, ReadFault>
    ensures { Gives (λ c. c) result (form_read (said scope.now) spot (form (said scope.now).version word.now (items_len (items_of (map V.shown operands.now)))) (items_of (map V.shown operands.now))) }
{
    match word {
        "let" => {
            let (to, literal) = two(names, scope, operands, spot)?;
            Ok(Command::Let { to, literal })
        }
        "new" => {
            let to = one(names, scope, operands, spot)?;
            Ok(Command::New { to })
        }
        "symbol" => {
            let to = one(names, scope, operands, spot)?;
            Ok(Command::Symbol { to })
        }
        "symbolfor" => {
            let (to, text) = two(names, scope, operands, spot)?;
            Ok(Command::SymbolFor { to, text })
        }
        "copy" => {
            let (to, from) = two(names, scope, operands, spot)?;
            Ok(Command::Copy { to, from })
        }
        "same" => {
            let (to, left, right) = three(names, scope, operands, spot)?;
            Ok(Command::Same { to, left, right })
        }
        "say" => {
            let from = one(names, scope, operands, spot)?;
            Ok(Command::Say { from })
        }
        "set" => {
            let (object, key, from) = three(names, scope, operands, spot)?;
            Ok(Command::Set { object, key, from })
        }
        "get" => {
            let (to, object, key) = three(names, scope, operands, spot)?;
            Ok(Command::Get { to, object, key })
        }
        "delete" => {
            let (to, object, key) = three(names, scope, operands, spot)?;
            Ok(Command::Delete { to, object, key })
        }
        "keys" => {
            let object = one(names, scope, operands, spot)?;
            Ok(Command::Keys { object })
        }
        "collect" => {
            none(operands, spot)?;
            outside_callbacks(spot)?;
            Ok(Command::Collect)
        }
        "collectlater" => later_command(scope, operands, spot),
        _ => weak_command(names, scope, word, operands, spot),
    }
}

/// A later collection, which version 1 has not.
fn later_command<V: Seen>(scope: &Scope, operands: &[V], spot: Spot) -> Result<Command, ReadFault>
    ensures { Gives (λ c. c) result (form_read (said scope.now) spot (later_form (said scope.now).version) (items_of (map V.shown operands.now))) }
{
    match scope.version() {
        Version::One => Err(spot.fault(FaultCode::Operands)),
        Version::Two | Version::Three => {
            none(operands, spot)?;
            outside_callbacks(spot)?;
            Ok(Command::CollectLater)
        }
    }
}

/// A command on WeakRefs, WeakMaps or WeakSets, and then the others.
fn weak_command<V: Seen>(
    names: &mut KnownNames,
    scope: &Scope,
    word: &str,
    operands: &[V],
    spot: Spot,
) -> Result<Command, ReadFault>
    ensures { Gives (λ c. c) result (form_read (said scope.now) spot (weak_form (said scope.now).version word.now (items_len (items_of (map V.shown operands.now)))) (items_of (map V.shown operands.now))) }
{
    match word {
        "weakref" => {
            let (to, target) = two(names, scope, operands, spot)?;
            Ok(Command::WeakRef { to, target })
        }
        "deref" => {
            let (to, weakref) = two(names, scope, operands, spot)?;
            Ok(Command::Deref { to, weakref })
        }
        "weakmap" => {
            let to = one(names, scope, operands, spot)?;
            Ok(Command::WeakMap { to })
        }
        "wmset" => {
            let (map, key, from) = three(names, scope, operands, spot)?;
            Ok(Command::WeakMapSet { map, key, from })
        }
        "wmget" => {
            let (to, map, key) = three(names, scope, operands, spot)?;
            Ok(Command::WeakMapGet { to, map, key })
        }
        "wmhas" => {
            let (to, map, key) = three(names, scope, operands, spot)?;
            Ok(Command::WeakMapHas { to, map, key })
        }
        "wmdelete" => {
            let (to, map, key) = three(names, scope, operands, spot)?;
            Ok(Command::WeakMapDelete { to, map, key })
        }
        "weakset" => {
            let to = one(names, scope, operands, spot)?;
            Ok(Command::WeakSet { to })
        }
        "wsadd" => {
            let (set, member) = two(names, scope, operands, spot)?;
            Ok(Command::WeakSetAdd { set, member })
        }
        "wshas" => {
            let (to, set, member) = three(names, scope, operands, spot)?;
            Ok(Command::WeakSetHas { to, set, member })
        }
        "wsdelete" => {
            let (to, set, member) = three(names, scope, operands, spot)?;
            Ok(Command::WeakSetDelete { to, set, member })
        }
        _ => shared_command(names, scope, word, operands, spot),
    }
}

/// The fault of a command that no callback may have, where the spot is in one.
fn outside_callbacks(spot: Spot) -> Result<(), ReadFault>
    ensures { Gives (λ _. tt) result (outside_read spot) }
{
    match spot.place {
        Place::Callback(_, _) => Err(spot.fault(FaultCode::Collection)),
        _ => Ok(()),
    }
}
