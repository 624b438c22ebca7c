//! Commands on FinalizationRegistries.

ghost use Rattle.std.specs.Prelude.{◌≡◌, map};
ghost use Rattle.serde_json.specs.View.{items_of};
ghost use Rattle.serde_json.specs.Events.{items_len};
ghost use Rattle.es_reading.specs.Forms.{registry_form, register_form};
ghost use Rattle.es_reading.specs.Reading.{Gives, said, form_read};

use crate::ReadFault;
use crate::fault::{FaultCode, Spot};
use crate::known_names::KnownNames;
use crate::operands::{four, three, two};
use crate::part::Seen;
use crate::parts::has_exactly;
use crate::scope::Scope;
use es_event::Command;

/// A command on FinalizationRegistries.
pub(crate) fn registry_command<V: Seen>(
    names: &mut KnownNames,
    scope: &Scope,
    word: &str,
    operands: &[V],
    spot: Spot,
) -> Result<Command, ReadFault>
    ensures { Gives (λ c. c) result (form_read (said scope.now) spot (registry_form word.now (items_len (items_of (map V.shown operands.now)))) (items_of (map V.shown operands.now))) }
{
    match word {
        "registry" => {
            let (to, callback) = two(names, scope, operands, spot)?;
            Ok(Command::FinalizationRegistry { to, callback })
        }
        "register" => register_of(names, scope, operands, spot),
        "unregister" => {
            let (to, registry, token) = three(names, scope, operands, spot)?;
            Ok(Command::Unregister {
                to,
                registry,
                token,
            })
        }
        _ => Err(spot.fault(FaultCode::Operands)),
    }
}

/// A `register`, with a token where there are four operands.
fn register_of<V: Seen>(
    names: &mut KnownNames,
    scope: &Scope,
    operands: &[V],
    spot: Spot,
) -> Result<Command, ReadFault>
    ensures { Gives (λ c. c) result
        (form_read (said scope.now) spot (register_form (items_len (items_of (map V.shown operands.now)))) (items_of (map V.shown operands.now))) }
{
    if has_exactly(operands, 4) {
        let (registry, target, held, token) = four(names, scope, operands, spot)?;
        let token = names.token(Some(token))?;
        return Ok(Command::Register {
            registry,
            target,
            held,
            token,
        });
    }
    let (registry, target, held) = three(names, scope, operands, spot)?;
    let token = names.token(None)?;
    Ok(Command::Register {
        registry,
        target,
        held,
        token,
    })
}
