// What is told on standard error, in lines of their own. Where that can't be written there is nobody to tell.
use std::env::FillError;
use std::io::{Error, Print};

// The system's numbers for what no call of it said: a word that is missing or too long, bytes that are no text, and a name that is taken.
const MISSING: i32 = 22;

const TOO_LONG: i32 = 36;

pub(crate) const NO_TEXT: i32 = 84;

pub(crate) const TAKEN: i32 = 17;

// Something failed or was refused, and standard error has a line that says so.
#[derive(Clone, Copy)]
pub(crate) struct Told;

pub(crate) fn tell(rt: &HostRuntime, text: &[u8]) -> Told {
    let _ = rt.stderr().write_all(text);
    Told
}

// The system's reason for an error. The library puts the error's number behind it, which is not told.
fn tell_reason(rt: &HostRuntime, error: Error) -> Told {
    let Ok(reason) = format!(in rt.alloc(); "{error}") else {
        return tell(rt, b"Cannot allocate memory");
    };
    match reason.as_str().split_once(" (os error ") {
        Some((words, _)) => tell(rt, words.as_bytes()),
        None => tell(rt, reason.as_bytes()),
    }
}

// A line: what failed, as the caller names it, and why.
pub(crate) fn failed(rt: &HostRuntime, what: &[u8], error: Error) -> Told {
    tell(rt, what);
    tell(rt, b": ");
    tell_reason(rt, error);
    tell(rt, b"\n")
}

// Why a word could not be read.
pub(crate) fn word_failed(error: FillError) -> Error {
    Error::from_raw_os_error(match error {
        FillError::NotPresent => MISSING,
        FillError::TooLong => TOO_LONG,
    })
}
