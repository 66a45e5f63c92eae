//! `scan`: goes through folders, and checks one file after another.
ghost use Rattle.std.specs.Prelude.{◌≡◌, ◌≢◌, ◌≤◌, OnOk};

use crate::course::Course;
use crate::files::{Opened, path_of, unopened};
use jser_inputs::{Decoded, Form, InputFault};
use jser_prim::{Failed, FromRead, Sink};
use jser_scan::{Found, How, Rules, check_file, print_summary};
use jser_settings::tell_failure;
use std::fs::{self, File, Metadata};
use std::io::ErrorKind;
use std::os::unix::fs::MetadataExt;

/// What is asked of the files.
#[derive(Drop)]
pub(crate) struct Task<'t> {
    /// What they are checked under.
    pub(crate) rules: &'t Rules,
    /// Their form.
    pub(crate) form: Form,
    /// How they are printed.
    pub(crate) how: How,
    /// Whether standard error is told how far it is.
    pub(crate) progress: bool,
}

/// Which file or folder it is, whatever path names it: its device, and its number there.
#[derive(Clone, Copy, PartialEq, Eq)]
struct Node {
    device: u64,
    number: u64,
}

/// What a path is, where links are not followed.
#[derive(Clone, Copy)]
enum Kind {
    File(Node),
    Folder(Node),
    Other,
    Unknown,
}

/// What is still to be looked at in a folder.
#[derive(Drop)]
struct Waiting {
    path: String,
    /// What it was when the folder was read.
    kind: Kind,
}

/// Checks the files of these paths, and those in the folders among them, and prints the counts.
pub(crate) fn scan_paths<W: Sink, E: Sink>(
    rt: &HostRuntime,
    task: &Task<'_>,
    paths: &[String],
    output: &mut W,
    faults: &mut E,
) -> u8
    ensures status { result ≤ 3 }
    ensures unbroken { result ≢ 3 → W.has_failed output.new ≡ W.has_failed output.old }
    ensures misuse { result ≡ 2 → output.new ≡ output.old }
{
    let mut course = Course::new(rt, task.progress, "files");
    for path in paths {
        if scan_given(rt, task, path.as_str(), &mut course, output, faults).is_err() {
            course.progress.clear();
            return tell_failure(faults, "write failed\n");
        }
    }
    course.progress.clear();
    let _ = print_summary(course.tally, faults);
    course.tally.status()
}

/// Checks what a path names that was given: the files in a folder, or whatever else can be opened.
fn scan_given<W: Sink, E: Sink>(
    rt: &HostRuntime,
    task: &Task<'_>,
    path: &str,
    course: &mut Course<'_>,
    output: &mut W,
    faults: &mut E,
) -> Result<(), Failed>
    ensures kept { OnOk result (W.has_failed output.new ≡ W.has_failed output.old) }
{
    let is_folder = match fs::metadata(rt, path) {
        Ok(found) => found.is_dir(),
        Err(_) => false,
    };
    if path != "-" && is_folder {
        scan_folder(rt, task, path, course, output, faults)
    } else {
        scan_file(rt, task, path, course, output, faults)
    }
}

/// Checks the regular files in a folder, in the byte order of their names, each folder with what is in it at its place.
fn scan_folder<W: Sink, E: Sink>(
    rt: &HostRuntime,
    task: &Task<'_>,
    folder: &str,
    course: &mut Course<'_>,
    output: &mut W,
    faults: &mut E,
) -> Result<(), Failed>
    ensures kept { OnOk result (W.has_failed output.new ≡ W.has_failed output.old) }
{
    // The next one last.
    let mut waiting: Vec<Waiting> = Vec::new(rt.alloc());
    enter(rt, task, folder, None, &mut waiting, course, output, faults)?;
    'paths: for _ in 0..u64::MAX {
        let Some(next) = waiting.pop() else {
            return Ok(());
        };
        let path = next.path.as_str();
        match next.kind {
            Kind::File(node) => {
                let found = found_in_folder(rt, task, path, node);
                print(rt, task, path, &found, course, output, faults)?;
            }
            Kind::Folder(node) => enter(
                rt,
                task,
                path,
                Some(node),
                &mut waiting,
                course,
                output,
                faults,
            )?,
            Kind::Unknown => {
                let found = Found::NotOpened;
                print(rt, task, path, &found, course, output, faults)?;
            }
            Kind::Other => {}
        }
    }
    Ok(())
}

/// What a path is.
fn kind_of(rt: &HostRuntime, path: &str) -> Kind {
    match fs::symlink_metadata(rt, path) {
        Ok(found) if found.is_file() => Kind::File(node_of(&found)),
        Ok(found) if found.is_dir() => Kind::Folder(node_of(&found)),
        Ok(_) => Kind::Other,
        Err(_) => Kind::Unknown,
    }
}

/// Which file or folder this is told of.
fn node_of(found: &Metadata) -> Node {
    Node {
        device: found.dev(),
        number: found.ino(),
    }
}

/// Puts what is in a folder on top of what is waiting. Where the folder cannot be read, or is no longer the one that it was, that
/// is printed.
fn enter<W: Sink, E: Sink>(
    rt: &HostRuntime,
    task: &Task<'_>,
    folder: &str,
    was: Option<Node>,
    waiting: &mut Vec<Waiting>,
    course: &mut Course<'_>,
    output: &mut W,
    faults: &mut E,
) -> Result<(), Failed>
    ensures kept { OnOk result (W.has_failed output.new ≡ W.has_failed output.old) }
{
    let before = waiting.len();
    let result = names_in(rt, folder, waiting);
    if !is_still_folder(rt, folder, was) {
        waiting.truncate(before);
        return print(rt, task, folder, &Found::NotOpened, course, output, faults);
    }
    match result {
        Ok(()) => Ok(()),
        Err(found) => print(rt, task, folder, &found, course, output, faults),
    }
}

/// Whether a path still names the folder that it named. Of the folder that was given nothing is asked: it may be a link.
fn is_still_folder(rt: &HostRuntime, path: &str, was: Option<Node>) -> bool {
    let Some(was) = was else {
        return true;
    };
    match kind_of(rt, path) {
        Kind::Folder(node) => node == was,
        _ => false,
    }
}

/// Puts what is in a folder on top of what is waiting, the first one last. A name that is no UTF-8 names nothing that can be
/// opened: the folder was then not read as a whole, and the others wait all the same.
fn names_in(rt: &HostRuntime, folder: &str, waiting: &mut Vec<Waiting>) -> Result<(), Found> {
    let entries = match fs::read_dir(rt, folder) {
        Ok(entries) => entries,
        Err(error) => return Err(unopened(&error)),
    };
    let mut paths: Vec<String> = Vec::new(rt.alloc());
    let mut is_whole = true;
    for entry in entries {
        match entry {
            Ok(entry) => keep_path(rt, entry.path().as_str(), &mut paths)?,
            Err(error) if error.kind() == ErrorKind::OutOfMemory => return Err(Found::OutOfMemory),
            Err(_) => is_whole = false,
        }
    }
    put_on_top(rt, paths, waiting)?;
    if is_whole {
        Ok(())
    } else {
        Err(Found::NotRead(InputFault::Failed))
    }
}

/// Adds a path to these.
fn keep_path(rt: &HostRuntime, path: &str, paths: &mut Vec<String>) -> Result<(), Found> {
    let Ok(path) = String::from_str(rt.alloc(), path) else {
        return Err(Found::OutOfMemory);
    };
    if paths.push(path).is_err() {
        return Err(Found::OutOfMemory);
    }
    Ok(())
}

/// Puts these paths on top of what is waiting, the first one last, each with what it is.
fn put_on_top(
    rt: &HostRuntime,
    mut paths: Vec<String>,
    waiting: &mut Vec<Waiting>,
) -> Result<(), Found> {
    if paths.sort().is_err() {
        return Err(Found::OutOfMemory);
    }
    paths.reverse();
    for path in paths {
        let kind = kind_of(rt, path.as_str());
        if waiting.push(Waiting { path, kind }).is_err() {
            return Err(Found::OutOfMemory);
        }
    }
    Ok(())
}

/// Checks a file, or standard input where it is named `-`, and prints what was found.
fn scan_file<W: Sink, E: Sink>(
    rt: &HostRuntime,
    task: &Task<'_>,
    path: &str,
    course: &mut Course<'_>,
    output: &mut W,
    faults: &mut E,
) -> Result<(), Failed>
    ensures kept { OnOk result (W.has_failed output.new ≡ W.has_failed output.old) }
{
    let found = found_in(rt, task, path);
    print(rt, task, path, &found, course, output, faults)
}

/// What the check finds in a file.
fn found_in(rt: &HostRuntime, task: &Task<'_>, path: &str) -> Found {
    match Opened::new(rt, path) {
        Ok(opened) => found_in_opened(rt, task, opened),
        Err(error) => unopened(&error),
    }
}

/// What the check finds in a file of a folder, if it is the regular file that was there when the folder was read.
fn found_in_folder(rt: &HostRuntime, task: &Task<'_>, path: &str, was: Node) -> Found {
    match File::open(rt, path) {
        Ok(file) if is_still_file(&file, was) => found_in_opened(rt, task, Opened::File(file)),
        Ok(_) => Found::NotOpened,
        Err(error) => unopened(&error),
    }
}

/// Whether what was opened is this regular file.
fn is_still_file(file: &File, was: Node) -> bool {
    match file.metadata() {
        Ok(found) => found.is_file() && node_of(&found) == was,
        Err(_) => false,
    }
}

/// What the check finds in what was opened.
fn found_in_opened(rt: &HostRuntime, task: &Task<'_>, opened: Opened) -> Found {
    let input = Decoded::new(FromRead::new(opened), task.form);
    let (found, _input) = check_file(rt.alloc(), task.rules, input);
    found
}

/// Counts a file, and prints what was found. Where there is no memory for its path, that is told.
fn print<W: Sink, E: Sink>(
    rt: &HostRuntime,
    task: &Task<'_>,
    path: &str,
    found: &Found,
    course: &mut Course<'_>,
    output: &mut W,
    faults: &mut E,
) -> Result<(), Failed>
    ensures kept { OnOk result (W.has_failed output.new ≡ W.has_failed output.old) }
{
    course.progress.add(1);
    let Ok(path) = path_of(rt.alloc(), path) else {
        course.tell_no_memory(faults);
        return Ok(());
    };
    course.print(task.how, &path, found, output, faults)
}
