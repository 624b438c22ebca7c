//! A first look over a plan's text: its version, and the names of its agents and of their callbacks. What it
//! finds is compared with what is read then, so that nothing rests on it, and it promises nothing.

use crate::marks;
use crate::quit::Quit;
use es_reading::Version;
use es_value::{MOST_AGENTS, MOST_CALLBACKS, Name};
use json::{Reader, Scratch};
use memchr::memmem;
use std::alloc::Global;
use std::collections::BTreeSet;

/// How deep what is passed over may nest.
const DEPTH: usize = 100;

/// The version, and the names of the agents, in order, and of the callbacks of each, by rising byte order.
#[derive(Drop)]
pub(crate) struct Overview {
    pub(crate) version: Version,
    pub(crate) agents: Vec<Name>,
    pub(crate) callbacks: Vec<Vec<Name>>,
}

/// What there is to be found: each agent has the keys `name` and `callbacks` once, in whatever order. A
/// callback may be called like one of them; its value is an array.
pub(crate) fn overview_of(
    alloc: Global,
    text: &str,
    scratch: &mut Scratch,
) -> Result<Overview, Quit> {
    let mut agents = Vec::new(alloc);
    for place in memmem::find_iter(text.as_bytes(), b"\"name\"") {
        if let Some(value) = value_of(text, place, "\"name\"", b'"') {
            if agents.len() >= MOST_AGENTS {
                return Err(Quit::Unusual);
            }
            agents.push(name_in(alloc, value, scratch)?)?;
        }
    }
    let mut callbacks = Vec::new(alloc);
    for place in memmem::find_iter(text.as_bytes(), b"\"callbacks\"") {
        if let Some(value) = value_of(text, place, "\"callbacks\"", b'{') {
            if callbacks.len() >= MOST_AGENTS {
                return Err(Quit::Unusual);
            }
            callbacks.push(names_in(alloc, value, scratch)?)?;
        }
    }
    if agents.len() != callbacks.len() {
        return Err(Quit::Unusual);
    }
    let version = version_in(text);
    Ok(Overview {
        version,
        agents,
        callbacks,
    })
}

/// The version that the first such key has. Where it is found nowhere the first is as good as any.
fn version_in(text: &str) -> Version {
    for place in memmem::find_iter(text.as_bytes(), b"\"version\"") {
        if value_of(text, place, "\"version\"", b'1').is_some() {
            return Version::One;
        }
        if value_of(text, place, "\"version\"", b'2').is_some() {
            return Version::Two;
        }
        if value_of(text, place, "\"version\"", b'3').is_some() {
            return Version::Three;
        }
    }
    Version::One
}

/// The text from a value on that begins with this byte, where at a place stands a key, and then, with white
/// space or without, a colon and the value.
fn value_of<'a>(text: &'a str, place: usize, key: &str, first: u8) -> Option<&'a str> {
    let behind_key = text.get(place..)?.strip_prefix(key)?;
    let value = behind_key.trim_start().strip_prefix(':')?.trim_start();
    if value.as_bytes().first() != Some(&first) {
        return None;
    }
    Some(value)
}

/// The name that stands as a JSON text where a text begins.
fn name_in(alloc: Global, text: &str, scratch: &mut Scratch) -> Result<Name, Quit> {
    let mut reader = Reader::new(text, scratch)?;
    let name = marks::text(&mut reader)?;
    Ok(Name::read(alloc, name)?)
}

/// The names of the members of the object that a text begins with, where they are no more than an agent has
/// callbacks.
fn names_in(alloc: Global, text: &str, scratch: &mut Scratch) -> Result<Vec<Name>, Quit> {
    let mut reader = Reader::new(text, scratch)?;
    marks::open_object(&mut reader)?;
    let mut keys = BTreeSet::new(alloc);
    for _ in 0..=MOST_CALLBACKS {
        match reader.next_key()? {
            Some(key) => keys.insert(key)?,
            None => return in_order(alloc, keys),
        };
        reader.skip_value(DEPTH)?;
    }
    Err(Quit::Unusual)
}

/// The names that are spelled like these keys.
fn in_order(alloc: Global, keys: BTreeSet<&str>) -> Result<Vec<Name>, Quit> {
    let mut names = Vec::new(alloc);
    for key in keys {
        names.push(Name::read(alloc, key)?)?;
    }
    Ok(names)
}
