//! What the operands of each command are.

ghost use Rattle.std.specs.Prelude.{◌≡◌, option_map};
ghost use Rattle.es_reading.specs.Forms.{compare_form, count_form, form, later_form, load_form, modify_form, notify_form, register_form, registry_form, shared_form, store_form, wait_form, weak_form};
ghost use Rattle.es_explain.specs.Causes.{types};
ghost use Rattle.es_explain.specs.Coded.{types_of};

use es_event::Modification;
use es_reading::{Version, modification_named};

/// What an operand is: a variable or a property's key, a literal, a text, the name of a callback or of
/// another agent, a number, a number or a variable that has one, or a number of words.
#[derive(Clone, Copy, Debug)]
pub(crate) enum Kind {
    Name,
    Literal,
    Text,
    Callback,
    Agent,
    Whole,
    Amount,
    Words,
}

/// What the operands of a command of a version are, by its word and how many operands are there; nothing
/// for a word that is none.
pub(crate) fn kinds_of(version: Version, word: &str, count: usize) -> Option<&'static [Kind]>
    ensures { option_map (λ ks. types_of ks.now) result ≡ types (form version word.now count) }
{
    match word {
        "let" => Some(&[Kind::Name, Kind::Literal]),
        "new" => Some(&[Kind::Name]),
        "symbol" => Some(&[Kind::Name]),
        "symbolfor" => Some(&[Kind::Name, Kind::Text]),
        "copy" => Some(&[Kind::Name, Kind::Name]),
        "same" => Some(&[Kind::Name, Kind::Name, Kind::Name]),
        "say" => Some(&[Kind::Name]),
        "set" => Some(&[Kind::Name, Kind::Name, Kind::Name]),
        "get" => Some(&[Kind::Name, Kind::Name, Kind::Name]),
        "delete" => Some(&[Kind::Name, Kind::Name, Kind::Name]),
        "keys" => Some(&[Kind::Name]),
        "collect" => Some(&[]),
        "collectlater" => later_kinds(version),
        _ => weak_kinds(version, word, count),
    }
}

fn later_kinds(version: Version) -> Option<&'static [Kind]>
    ensures { option_map (λ ks. types_of ks.now) result ≡ types (later_form version) }
{
    match version {
        Version::One => None,
        Version::Two | Version::Three => Some(&[]),
    }
}

fn weak_kinds(version: Version, word: &str, count: usize) -> Option<&'static [Kind]>
    ensures { option_map (λ ks. types_of ks.now) result ≡ types (weak_form version word.now count) }
{
    match word {
        "weakref" => Some(&[Kind::Name, Kind::Name]),
        "deref" => Some(&[Kind::Name, Kind::Name]),
        "weakmap" => Some(&[Kind::Name]),
        "wmset" => Some(&[Kind::Name, Kind::Name, Kind::Name]),
        "wmget" => Some(&[Kind::Name, Kind::Name, Kind::Name]),
        "wmhas" => Some(&[Kind::Name, Kind::Name, Kind::Name]),
        "wmdelete" => Some(&[Kind::Name, Kind::Name, Kind::Name]),
        "weakset" => Some(&[Kind::Name]),
        "wsadd" => Some(&[Kind::Name, Kind::Name]),
        "wshas" => Some(&[Kind::Name, Kind::Name, Kind::Name]),
        "wsdelete" => Some(&[Kind::Name, Kind::Name, Kind::Name]),
        _ => shared_kinds(version, word, count),
    }
}

fn shared_kinds(version: Version, word: &str, count: usize) -> Option<&'static [Kind]>
    ensures { option_map (λ ks. types_of ks.now) result ≡ types (shared_form version word.now count) }
{
    match word {
        "buffer" => Some(&[Kind::Name, Kind::Words]),
        "length" => Some(&[Kind::Name, Kind::Name]),
        "sameblock" => Some(&[Kind::Name, Kind::Name, Kind::Name]),
        "load" => load_kinds(version),
        "store" => store_kinds(version),
        "compareexchange" => compare_kinds(version),
        "wait" => wait_kinds(version),
        "notify" => notify_kinds(version, count),
        "post" => Some(&[Kind::Agent, Kind::Name]),
        _ => match modification_named(word) {
            Some(how) => modify_kinds(version, how),
            None => registry_kinds(word, count),
        },
    }
}

fn load_kinds(version: Version) -> Option<&'static [Kind]>
    ensures { option_map (λ ks. types_of ks.now) result ≡ types (load_form version) }
{
    match version {
        Version::Three => Some(&[Kind::Name, Kind::Name, Kind::Amount]),
        _ => Some(&[Kind::Name, Kind::Name, Kind::Whole]),
    }
}

fn store_kinds(version: Version) -> Option<&'static [Kind]>
    ensures { option_map (λ ks. types_of ks.now) result ≡ types (store_form version) }
{
    match version {
        Version::Three => Some(&[Kind::Name, Kind::Amount, Kind::Amount]),
        _ => Some(&[Kind::Name, Kind::Whole, Kind::Whole]),
    }
}

fn modify_kinds(version: Version, how: Modification) -> Option<&'static [Kind]>
    ensures { option_map (λ ks. types_of ks.now) result ≡ types (modify_form version how) }
{
    match (version, how) {
        (Version::Three, _) => Some(&[Kind::Name, Kind::Name, Kind::Amount, Kind::Amount]),
        (_, Modification::Add) => Some(&[Kind::Name, Kind::Name, Kind::Whole, Kind::Whole]),
        _ => None,
    }
}

fn compare_kinds(version: Version) -> Option<&'static [Kind]>
    ensures { option_map (λ ks. types_of ks.now) result ≡ types (compare_form version) }
{
    match version {
        Version::Three => {
            Some(&[
                Kind::Name,
                Kind::Name,
                Kind::Amount,
                Kind::Amount,
                Kind::Amount,
            ])
        }
        _ => None,
    }
}

fn wait_kinds(version: Version) -> Option<&'static [Kind]>
    ensures { option_map (λ ks. types_of ks.now) result ≡ types (wait_form version) }
{
    match version {
        Version::Three => Some(&[Kind::Name, Kind::Name, Kind::Amount, Kind::Amount]),
        _ => None,
    }
}

fn notify_kinds(version: Version, count: usize) -> Option<&'static [Kind]>
    ensures { option_map (λ ks. types_of ks.now) result ≡ types (notify_form version count) }
{
    match version {
        Version::Three => count_kinds(count),
        _ => None,
    }
}

/// The fourth says how many are woken at most, where there is one.
fn count_kinds(count: usize) -> Option<&'static [Kind]>
    ensures { option_map (λ ks. types_of ks.now) result ≡ types (count_form count) }
{
    if count == 4 {
        return Some(&[Kind::Name, Kind::Name, Kind::Amount, Kind::Amount]);
    }
    Some(&[Kind::Name, Kind::Name, Kind::Amount])
}

fn registry_kinds(word: &str, count: usize) -> Option<&'static [Kind]>
    ensures { option_map (λ ks. types_of ks.now) result ≡ types (registry_form word.now count) }
{
    match word {
        "registry" => Some(&[Kind::Name, Kind::Callback]),
        "register" => register_kinds(count),
        "unregister" => Some(&[Kind::Name, Kind::Name, Kind::Name]),
        _ => None,
    }
}

/// The fourth is the token, where there is one.
fn register_kinds(count: usize) -> Option<&'static [Kind]>
    ensures { option_map (λ ks. types_of ks.now) result ≡ types (register_form count) }
{
    if count == 4 {
        return Some(&[Kind::Name, Kind::Name, Kind::Name, Kind::Name]);
    }
    Some(&[Kind::Name, Kind::Name, Kind::Name])
}
