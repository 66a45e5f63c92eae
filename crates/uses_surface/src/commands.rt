//! The command line and the jobs of the program, on any devices: jser_line, jser_settings, jser_commands.

use crate::texts::Drops;
use jser_commands::{Job, run};
use jser_filter::{Filter, Modules};
use jser_line::{Line, LineFault, line_of};
use jser_prim::{Sink, Source};
use jser_settings::{filter_of, modules_of};
use std::alloc::Global;

/// The job of a check, of the filter of a text with a table of modules.
pub fn check_job<R: Source, E: Sink>(
    alloc: Global,
    text: &str,
    table: &mut R,
    faults: &mut E,
) -> Result<Job, u8> {
    let filter: Filter = filter_of::<E>(alloc, text, faults)?;
    let modules: Modules = modules_of::<R, E>(alloc, table, faults)?;
    Ok(Job::Check {
        filter: filter.with_modules(modules),
        strict: true,
    })
}

/// The status of a job on bytes that come one by one, from a source that tells nothing of its faults.
pub fn status<W: Sink, E: Sink>(
    alloc: Global,
    job: &Job,
    bytes: &[u8],
    output: &mut W,
    faults: &mut E,
) -> u8 {
    let mut source = Drops::of(bytes);
    run::<Drops<'_>, W, E>(alloc, job, &mut source, output, faults)
}

/// The number of a job.
pub fn job_number(job: &Job) -> u8 {
    match job {
        Job::Check { .. } => 0,
        Job::CheckAnywhere { .. } => 1,
        Job::Show { .. } => 2,
        Job::ShowLimited { .. } => 3,
        Job::List { .. } => 4,
        Job::ListAnywhere { .. } => 5,
    }
}

/// The number of the command that these words ask for.
pub fn command(alloc: Global, words: &[&str]) -> Result<Option<u8>, LineFault> {
    let line: Option<Line> = line_of(alloc, words)?;
    Ok(match line {
        None => None,
        Some(Line::Check { .. }) => Some(0),
        Some(Line::Show { .. }) => Some(1),
        Some(Line::List { .. }) => Some(2),
        Some(Line::Scan { .. }) => Some(3),
        Some(Line::Records(_)) => Some(4),
        Some(Line::Find(_)) => Some(5),
        Some(Line::Suggest { .. }) => Some(6),
        Some(Line::Explain { .. }) => Some(7),
    })
}

/// Whether the words were no line; false where memory ran out.
pub fn is_mistake(fault: &LineFault) -> bool {
    match fault {
        LineFault::Clap(_) => true,
        LineFault::OutOfMemory => false,
    }
}
