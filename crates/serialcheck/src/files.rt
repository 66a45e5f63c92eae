//! The files that commands read, and their paths as these are printed.

use jser_scan::{FilePath, Found};
use std::alloc::{AllocError, Global};
use std::fs::File;
use std::io::{self, ErrorKind, Read, Stdin};

/// What was opened to be read.
#[derive(Drop)]
pub(crate) enum Opened {
    /// Standard input.
    Input(Stdin),
    /// A file.
    File(File),
}

impl Opened {
    /// Opens a file, or standard input where it is named `-`.
    pub(crate) fn new(rt: &HostRuntime, file: &str) -> io::Result<Opened> {
        if file == "-" {
            return Ok(Opened::Input(rt.stdin()));
        }
        match File::open(rt, file) {
            Ok(opened) => Ok(Opened::File(opened)),
            Err(error) => Err(error),
        }
    }
}

impl Read for Opened {
    fn read(&mut self, buf: &mut [u8]) -> io::Result<usize> {
        match self {
            Opened::Input(input) => input.read(buf),
            Opened::File(file) => file.read(buf),
        }
    }
}

/// What is found where something cannot be opened.
pub(crate) fn unopened(error: &io::Error) -> Found {
    match error.kind() {
        ErrorKind::OutOfMemory => Found::OutOfMemory,
        _ => Found::NotOpened,
    }
}

/// The path of a file, as it is printed.
pub(crate) fn path_of(alloc: Global, file: &str) -> Result<FilePath, AllocError> {
    match String::from_str(alloc, file) {
        Ok(text) => FilePath::new(alloc, text),
        Err(_) => Err(AllocError),
    }
}
