//! The program: its words, its file and how it ends.

ghost use Rattle.std.specs.Prelude.{◌≡◌, true};
ghost use Rattle.es_engine.specs.Statuses.{is_silent};

use crate::answer::{answer, check};
use es_engine::{Checked, Ending, RunFault, end_check, explain};
use std::alloc::{AllocError, Global};
use std::io::{BufWriter, Read, Write};
use std::rt::Runtime;
use std::{env, fs, io};

/// Why there is no answer.
#[derive(Debug, Drop)]
enum Stop {
    /// The run did not end well.
    Fault(RunFault),
    /// The words are not those of this program.
    Words,
}

/// What was done, if all went well.
#[derive(Drop)]
enum Done {
    /// A run, with its number of audits.
    Ran(u32),
    /// A check.
    Checked(Checked),
}

impl From<RunFault> for Stop {
    fn from(fault: RunFault) -> Self {
        Stop::Fault(fault)
    }
}

impl From<AllocError> for Stop {
    fn from(_: AllocError) -> Self {
        Stop::Fault(RunFault::NoMemory)
    }
}

/// Does what the words ask for, and tells how it ended. The report goes to standard output, and to `errors` what
/// there is to say of anything else.
pub(crate) fn run_program<H: Runtime + AllocGlobal, E: Write>(rt: &H, errors: &mut E) -> Ending
    ensures quiet { is_silent result ≡ true → errors.new ≡ errors.old }
{
    match run_words(rt) {
        Ok(Done::Ran(audits)) => Ending::Done(audits),
        Ok(Done::Checked(checked)) => end_check(&checked, errors),
        Err(Stop::Fault(fault)) => {
            let _ = explain(fault, errors);
            Ending::Failed(fault)
        }
        Err(Stop::Words) => {
            let _ = errors.write_all(b"the words here are run [FILE] and check [FILE]\n");
            Ending::Mistaken
        }
    }
}

/// Runs or checks what the words ask for, `run` where there are none.
fn run_words<H: Runtime + AllocGlobal>(rt: &H) -> Result<Done, Stop> {
    let words: Vec<String> = words_of(rt)?;
    let check = match words.get(1) {
        None => false,
        Some(word) if word.as_str() == "run" => false,
        Some(word) if word.as_str() == "check" => true,
        Some(_) => return Err(Stop::Words),
    };
    if words.len() > 3 {
        return Err(Stop::Words);
    }
    match words.get(2) {
        Some(file) => match fs::open(rt, file.as_str()) {
            Ok(mut file) => serve(rt, check, &mut file),
            Err(_) => Err(Stop::Fault(RunFault::Read)),
        },
        None => serve(rt, check, &mut rt.reader()),
    }
}

/// The words of the command line, the program's name first.
fn words_of<H: Runtime + AllocGlobal>(rt: &H) -> Result<Vec<String>, Stop> {
    match env::args(rt) {
        Ok(words) => Ok(words.collect(rt.alloc())?),
        Err(error) => match error.kind() {
            io::ErrorKind::OutOfMemory => Err(Stop::Fault(RunFault::NoMemory)),
            _ => Err(Stop::Words),
        },
    }
}

/// Runs what the reader gives, or checks it.
fn serve<H: Runtime + AllocGlobal, R: Read>(
    rt: &H,
    check: bool,
    reader: &mut R,
) -> Result<Done, Stop> {
    if check {
        return Ok(Done::Checked(check_reader(rt, reader)?));
    }
    Ok(Done::Ran(run_reader(rt, reader)?))
}

/// Runs what the reader gives. What is written has reached standard output once this is `Ok`.
fn run_reader<H: Runtime + AllocGlobal, R: Read>(rt: &H, reader: &mut R) -> Result<u32, RunFault> {
    let Ok(mut output) = BufWriter::new(rt.alloc(), io::writer(rt)) else {
        return Err(RunFault::NoMemory);
    };
    let audits = answer(rt.alloc(), reader, &mut output)?;
    match output.flush() {
        Ok(()) => Ok(audits),
        Err(_) => Err(RunFault::Write),
    }
}

/// Checks what the reader gives. What is written has reached standard output once this is `Ok`.
fn check_reader<H: Runtime + AllocGlobal, R: Read>(
    rt: &H,
    reader: &mut R,
) -> Result<Checked, RunFault> {
    let Ok(mut output) = BufWriter::new(rt.alloc(), io::writer(rt)) else {
        return Err(RunFault::NoMemory);
    };
    let checked = check(rt.alloc(), reader, &mut output)?;
    match output.flush() {
        Ok(()) => Ok(checked),
        Err(_) => Err(RunFault::Write),
    }
}
