//! What is shown of the words, and the status that goes with it.

use clap::error::ErrorKind;
use command_line::{not_text, request_of};
use std::alloc::{AllocError, AllocFailed, Global};
use std::io::Write;
use std::rt::Runtime;
use std::{env, io};

/// How it ended.
#[derive(Clone, Copy, Debug, PartialEq, Eq)]
pub(crate) enum Shown {
    /// The words ask for help or the version, and it has reached standard output.
    Helped,
    /// The words are none of the program's, or they ask for a plan.
    Mistaken,
    /// There was no memory.
    NoMemory,
    /// The writing of help failed.
    Unwritten,
}

impl Shown {
    /// The status: what the program ends with, as es_engine's `status_for` says.
    pub(crate) fn status(self) -> u8 {
        match self {
            Shown::Helped => 0,
            Shown::Mistaken => 2,
            Shown::NoMemory => 3,
            Shown::Unwritten => 4,
        }
    }
}

/// Why the words are no request.
#[derive(Drop)]
enum Stop {
    /// There was no memory.
    NoMemory,
    /// The text of the command line's parser.
    Words(clap::Error),
}

impl From<AllocError> for Stop {
    fn from(_: AllocError) -> Self {
        Stop::NoMemory
    }
}

impl<T: Drop> From<AllocFailed<T>> for Stop {
    fn from(_: AllocFailed<T>) -> Self {
        Stop::NoMemory
    }
}

impl From<clap::Error> for Stop {
    fn from(error: clap::Error) -> Self {
        match error.kind() {
            ErrorKind::OutOfMemory => Stop::NoMemory,
            _ => Stop::Words(error),
        }
    }
}

/// Shows the text of the command line's parser: help on standard output, all else in `errors`.
pub(crate) fn show_words<H: Runtime + AllocGlobal, E: Write>(rt: &H, errors: &mut E) -> Shown {
    match parse_words(rt) {
        Ok(()) => {
            let _ = errors.write_all(b"these words ask for a plan, which is not run here\n");
            Shown::Mistaken
        }
        Err(Stop::NoMemory) => {
            let _ = errors.write_all(b"out of memory\n");
            Shown::NoMemory
        }
        Err(Stop::Words(error)) => show(rt, &error, errors),
    }
}

fn show<H: Runtime, E: Write>(rt: &H, error: &clap::Error, errors: &mut E) -> Shown {
    if error.use_stderr() {
        let _ = write!(errors, "{error}");
        return Shown::Mistaken;
    }
    match rt.print(error) {
        Ok(()) => Shown::Helped,
        Err(_) => {
            let _ = errors.write_all(b"cannot write\n");
            Shown::Unwritten
        }
    }
}

fn parse_words<H: Runtime + AllocGlobal>(rt: &H) -> Result<(), Stop> {
    let alloc = rt.alloc();
    let words: Vec<String> = match env::args(rt) {
        Ok(words) => words.collect(alloc)?,
        Err(error) => match error.kind() {
            io::ErrorKind::OutOfMemory => return Err(Stop::NoMemory),
            _ => return Err(not_text(alloc).into()),
        },
    };
    let mut slices = Vec::new(alloc);
    for word in &words {
        slices.push(word.as_str())?;
    }
    let _ = request_of(alloc, slices.as_slice())?;
    Ok(())
}
