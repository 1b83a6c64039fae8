//! What is told of words: help where they ask for it, and else why they are no command line.

use crate::command::command;
use clap::error::ErrorKind;
use std::alloc::{AllocError, Global};

/// What `clap` says of words.
#[derive(Debug, Drop)]
pub enum Said {
    /// The words ask for this text: help, or the version.
    Text(String),
    /// Why they are no command line, and what to do.
    Reason(String),
    /// They are one, by `clap`.
    Nothing,
}

/// What `clap` says of the words after the program's name.
///
/// # Errors
///
/// `AllocError` where there is no memory for the text.
pub fn said_of(alloc: Global, words: &Vec<String>) -> Result<Said, AllocError> {
    let command = command(alloc)?;
    let error = match command.try_get_matches_from(words.as_slice()) {
        Ok(matches) => {
            drop(matches);
            return Ok(Said::Nothing);
        }
        Err(error) => error,
    };
    let kind = error.kind();
    if kind == ErrorKind::OutOfMemory {
        return Err(AllocError);
    }
    let text = format!(in alloc; "{error}")?;
    match kind {
        ErrorKind::DisplayHelp | ErrorKind::DisplayVersion => Ok(Said::Text(text)),
        _ => Ok(Said::Reason(text)),
    }
}
