//! Checks each file that the command line names in pieces of 1, 3 and 100 bytes, under several filters, and says where the
//! answer is not the one of `check_bytes`. One check serves for all files under a filter: before each size of pieces it has
//! taken a part of the file, and is restarted.
#![tactic(auto)]

use anyhow::{Result, bail};
use serialstream::{Checker, Filter, Options, Report, Stop, check_bytes};
use std::alloc::Global;
use std::{env, fs};

/// Filters of which some refuse what others admit, with the options under which they are tried.
const FILTERS: [(&str, bool); 4] = [
    ("", false),
    ("java.util.*;!*", false),
    ("java.util.**;java.lang.*", true),
    ("maxdepth=2;maxbytes=60;maxrefs=5;maxarray=2", false),
];

/// How many bytes a piece has.
const SIZES: [usize; 3] = [1, 3, 100];

fn main(rt: HostRuntime) -> Result<()> {
    let mut files = Vec::new(rt.alloc());
    for file in env::args(&rt)?.skip(1) {
        files.push(file)?;
    }
    if files.is_empty() {
        bail!("which files?");
    }
    let mut answers = 0u64;
    for (text, strict) in FILTERS {
        answers = answers.saturating_add(compare_all(&rt, &files, text, Options { strict })?);
    }
    println!(rt; "{} files, {answers} answers compared", files.len())?;
    Ok(())
}

/// A filter and its text, and how it is applied.
#[derive(Drop)]
struct Trial<'f> {
    text: &'f str,
    filter: &'f Filter,
    options: Options,
}

/// Checks all files under the filter of this text, and returns how many answers were the same; fails at the first other one.
fn compare_all(rt: &HostRuntime, files: &[String], text: &str, options: Options) -> Result<u64> {
    let filter = Filter::parse(rt.alloc(), text)?;
    let trial = Trial {
        text,
        filter: &filter,
        options,
    };
    let mut checker = Checker::new(rt.alloc(), Filter::parse(rt.alloc(), text)?, options);
    compare_files(rt, files, &trial, &mut checker)
}

fn compare_files(
    rt: &HostRuntime,
    files: &[String],
    trial: &Trial<'_>,
    checker: &mut Checker,
) -> Result<u64> {
    let mut answers = 0u64;
    for file in files {
        let bytes = fs::read(rt, file)?;
        answers = answers.saturating_add(compare_bytes(rt.alloc(), file, &bytes, trial, checker)?);
    }
    Ok(answers)
}

/// Checks the bytes of a file in pieces of each size.
fn compare_bytes(
    alloc: Global,
    file: &str,
    bytes: &[u8],
    trial: &Trial<'_>,
    checker: &mut Checker,
) -> Result<u64> {
    let whole = check_bytes(alloc, bytes, trial.filter, trial.options);
    for size in SIZES {
        if in_pieces(checker, bytes, size) != whole {
            bail!("{file} in pieces of {size} bytes, filter {}", trial.text);
        }
    }
    Ok(SIZES.len() as u64)
}

/// What the check answers of these bytes in pieces of this size, after it was restarted within them.
fn in_pieces(checker: &mut Checker, bytes: &[u8], size: usize) -> Result<Report, Stop> {
    let (part, _) = bytes.split_at(bytes.len() / 2);
    let _ = checker.feed(part);
    checker.restart();
    for piece in bytes.chunks(size.max(1)) {
        checker.feed(piece)?;
    }
    checker.finish()
}
