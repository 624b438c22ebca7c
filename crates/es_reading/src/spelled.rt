//! What texts and numbers stand for, as they are spelled.

ghost use Rattle.std.specs.Prelude.{◌≡◌};
ghost use Rattle.serde_json.specs.View.{number_view};
ghost use Rattle.serde_json.specs.Find.{as_i64};
ghost use Rattle.es_reading.specs.Forms.{is_whole};
ghost use Rattle.es_reading.specs.Reading.{Gives, said, name_read, text_read, whole_read, words_read, number_found, reference_read};

use crate::ReadFault;
use crate::fault::{FaultCode, Spot};
use crate::known_names::KnownNames;
use crate::scope::Scope;
use es_value::{MOST_WORDS, Name, NameFault, Text, TextFault};
use serde_json::Number;
use std::alloc::Global;

/// The name that is spelled so.
pub(crate) fn name_of(names: &mut KnownNames, chars: &str, spot: Spot) -> Result<Name, ReadFault>
    ensures { Gives (λ n. n) result (name_read spot chars.now) }
{
    match names.read(chars) {
        Ok(name) => Ok(name),
        Err(NameFault::BadName) => Err(spot.fault(FaultCode::Name)),
        Err(NameFault::NoMemory) => Err(ReadFault::NoMemory),
    }
}

/// The number of the callback that has this name.
pub(crate) fn callback_named(
    names: &mut KnownNames,
    scope: &Scope,
    chars: &str,
    spot: Spot,
) -> Result<usize, ReadFault>
    ensures { Gives (λ n. n) result (reference_read (said scope.now).callbacks spot chars.now) }
{
    let callback = name_of(names, chars, spot)?;
    known(scope.callback(callback.as_str()), spot)
}

/// The number of the other agent that has this name.
pub(crate) fn agent_named(
    names: &mut KnownNames,
    scope: &Scope,
    chars: &str,
    spot: Spot,
) -> Result<usize, ReadFault>
    ensures { Gives (λ n. n) result (reference_read (said scope.now).agents spot chars.now) }
{
    let agent = name_of(names, chars, spot)?;
    known(scope.other_agent(agent.as_str()), spot)
}

/// The number that was found under a name.
fn known(number: Option<usize>, spot: Spot) -> Result<usize, ReadFault>
    ensures { Gives (λ n. n) result (number_found spot number) }
{
    match number {
        Some(number) => Ok(number),
        None => Err(spot.fault(FaultCode::Unknown)),
    }
}

/// The text of the profile that is spelled so.
pub(crate) fn text_of(alloc: Global, chars: &str, spot: Spot) -> Result<Text, ReadFault>
    ensures { Gives (λ t. t) result (text_read spot chars.now) }
{
    match Text::read(alloc, chars) {
        Ok(text) => Ok(text),
        Err(TextFault::BadText) => Err(spot.fault(FaultCode::Profile)),
        Err(TextFault::NoMemory) => Err(ReadFault::NoMemory),
    }
}

/// The number of the profile that is spelled so.
pub(crate) fn whole_of(number: &Number, spot: Spot) -> Result<i64, ReadFault>
    ensures { Gives (λ z. z) result (whole_read spot (as_i64 (number_view number.now))) }
{
    match number.as_i64() {
        Some(number) if is_of_profile(number) => Ok(number),
        _ => Err(spot.fault(FaultCode::Profile)),
    }
}

/// Whether a number is within ±9007199254740991.
fn is_of_profile(number: i64) -> bool
    ensures { result ≡ is_whole number }
{
    (-9007199254740991..=9007199254740991).contains(&number)
}

/// The number of words that is spelled so.
pub(crate) fn words_of(number: &Number, spot: Spot) -> Result<u32, ReadFault>
    ensures { Gives (λ n. n) result (words_read spot (as_i64 (number_view number.now))) }
{
    match u32::try_from(whole_of(number, spot)?) {
        Ok(words) if words <= MOST_WORDS => Ok(words),
        _ => Err(spot.fault(FaultCode::Limit)),
    }
}
