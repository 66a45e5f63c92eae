//! `find`: reads files, and prints the streams that lie in each.
ghost use Rattle.std.specs.Prelude.{◌≡◌, ◌≢◌, ◌≤◌, IfErr};

use crate::course::Course;
use crate::files::{Opened, path_of, unopened};
use crate::filter_with;
use crate::number::number_from_one;
use crate::progress::{Counted, Progress};
use jser_find::{
    Budget, Find as Lies, Finds, Form, Next, Place, TextFind, TextFinds, judge, print_find,
    print_spent,
};
use jser_inputs::InputFault;
use jser_line::Find;
use jser_prim::{Failed, Outbox, Sink};
use jser_printer::{write, write_decimal};
use jser_scan::{FilePath, Found, How, Rules, write_count, write_path};
use jser_settings::{FAILED, tell_failure};
use std::alloc::AllocError;
use std::fmt::Write as WriteText;
use std::fs::{self, File};
use std::io::{self, ErrorKind, Read, Write};

/// How many bytes of a stream are read at most, where that is not said.
const MOST: u64 = 67_108_864;

/// How many bytes are read for each byte of a file, where that is not said.
const EFFORT: u64 = 64;

/// How many files are written at most, where that is not said.
const MOST_FILES: u64 = 10_000;

/// How much of a name stands in that of a file that is written.
const MOST_OF_NAME: usize = 100;

/// How long a stream of no contents is: a header.
const HEADER_LEN: usize = 4;

/// What is asked of files.
#[derive(Drop)]
struct Search<'t> {
    words: &'t Find,
    rules: Rules,
    how: How,
    numbers: Numbers,
}

/// The numbers of a search.
#[derive(Clone, Copy)]
struct Numbers {
    /// How many bytes are read at most from a header on.
    most: usize,
    /// How many bytes are read for each byte of a file.
    effort: usize,
    /// How many files are written at most.
    files: u64,
}

/// What was searched so far.
#[derive(Drop)]
struct Searched<'r> {
    files: u64,
    finds: u64,
    /// How many headers have no content.
    headers: u64,
    carved: Carved,
    course: Course<'r>,
}

/// Which streams were written to files.
#[derive(Clone, Copy)]
struct Carved {
    /// How many.
    files: u64,
    /// Whether there were more.
    more: bool,
    /// Whether one was not written.
    failed: bool,
}

/// A file that is searched.
#[derive(Drop)]
struct Searching<'f> {
    /// How many were searched before it.
    number: u64,
    /// As it was given.
    file: &'f str,
    /// As it is printed.
    path: FilePath,
}

/// Whether a search goes on.
#[derive(Clone, Copy)]
enum Goes {
    On,
    Ends,
}

impl Searched<'_> {
    /// A stream was not written. Standard error is told why next.
    fn not_carved(&mut self) {
        self.carved.failed = true;
        self.course.progress.clear();
    }

    /// The status: that of the answers, but that of a failure where a stream was not written.
    fn status(&self) -> u8
        ensures status { result ≤ 3 }
        ensures misuse { result ≢ 2 }
    {
        if self.carved.failed || self.carved.more {
            FAILED
        } else {
            self.course.tally.status()
        }
    }
}

/// Prints the streams in these files, and the counts of all.
pub(crate) fn find_in_files<W: Sink, E: Sink>(
    rt: &HostRuntime,
    words: &Find,
    output: &mut W,
    faults: &mut E,
) -> u8
    ensures status { result ≤ 3 }
    ensures unbroken { result ≢ 3 → W.has_failed output.new ≡ W.has_failed output.old }
    ensures misuse { result ≡ 2 → output.new ≡ output.old }
{
    let numbers = match numbers_of(words, faults) {
        Ok(numbers) => numbers,
        Err(status) => return status,
    };
    match filter_with(rt, &words.filters, faults) {
        Ok(filter) => {
            let rules = Rules {
                filter,
                strict: words.strict,
                anywhere: false,
            };
            let how = How {
                refused: false,
                json: words.json,
            };
            let search = Search {
                words,
                rules,
                how,
                numbers,
            };
            search_files(rt, &search, output, faults)
        }
        Err(status) => status,
    }
}

/// The numbers that the words ask for.
fn numbers_of<E: Sink>(words: &Find, faults: &mut E) -> Result<Numbers, u8>
    ensures { IfErr result (λ status. status ≡ 2) }
{
    let most = match number_from_one(&words.most, faults, "--most is not a number from 1\n") {
        Ok(most) => most,
        Err(status) => return Err(status),
    };
    let effort = match number_from_one(&words.effort, faults, "--effort is not a number from 1\n") {
        Ok(effort) => effort,
        Err(status) => return Err(status),
    };
    let files = match number_from_one(
        &words.most_files,
        faults,
        "--most-files is not a number from 1\n",
    ) {
        Ok(files) => files,
        Err(status) => return Err(status),
    };
    Ok(Numbers {
        most: most.unwrap_or(MOST) as usize,
        effort: effort.unwrap_or(EFFORT) as usize,
        files: files.unwrap_or(MOST_FILES),
    })
}

/// Prints the streams in the files of a search, and the counts of all.
fn search_files<W: Sink, E: Sink>(
    rt: &HostRuntime,
    search: &Search<'_>,
    output: &mut W,
    faults: &mut E,
) -> u8
    ensures status { result ≤ 3 }
    ensures unbroken { result ≢ 3 → W.has_failed output.new ≡ W.has_failed output.old }
    ensures misuse { result ≡ 2 → output.new ≡ output.old }
{
    if output.failed() {
        return tell_failure(faults, "write failed\n");
    }
    let searched = search_all(rt, search, output, faults);
    if output.failed() {
        return tell_failure(faults, "write failed\n");
    }
    print_searched(&searched, faults);
    searched.status()
}

/// Prints the streams in the files of a search, as long as the output does not fail, and returns what was found.
fn search_all<'r, W: Sink, E: Sink>(
    rt: &'r HostRuntime,
    search: &Search<'_>,
    output: &mut W,
    faults: &mut E,
) -> Searched<'r> {
    let mut searched = Searched {
        files: 0,
        finds: 0,
        headers: 0,
        carved: Carved {
            files: 0,
            more: false,
            failed: false,
        },
        course: Course::new(rt, search.words.progress, "bytes"),
    };
    for file in &search.words.files {
        if search_file(rt, search, file.as_str(), &mut searched, output, faults).is_err() {
            break;
        }
    }
    searched.course.progress.clear();
    searched
}

/// Prints the streams in a file, or in standard input where it is named `-`.
fn search_file<W: Sink, E: Sink>(
    rt: &HostRuntime,
    search: &Search<'_>,
    file: &str,
    searched: &mut Searched<'_>,
    output: &mut W,
    faults: &mut E,
) -> Result<(), Failed> {
    let number = searched.files;
    searched.files = searched.files.saturating_add(1);
    let Ok(path) = path_of(rt.alloc(), file) else {
        searched.course.tell_no_memory(faults);
        return Ok(());
    };
    let of = Searching { number, file, path };
    match bytes_of_file(rt, search, file) {
        Ok(bytes) => search_bytes(rt, search, &of, &bytes, searched, output, faults),
        Err(found) => searched
            .course
            .print(search.how, &of.path, &found, output, faults),
    }
}

/// Prints the streams in the bytes of a file, as far as its budget lasts.
fn search_bytes<W: Sink, E: Sink>(
    rt: &HostRuntime,
    search: &Search<'_>,
    of: &Searching<'_>,
    bytes: &[u8],
    searched: &mut Searched<'_>,
    output: &mut W,
    faults: &mut E,
) -> Result<(), Failed> {
    let mut budget = Budget::new(search.numbers.effort, bytes.len());
    let mut finds = Finds::new(bytes, search.numbers.most);
    'finds: for _ in 0..u64::MAX {
        let before = finds.place();
        if search.words.text {
            let goes = search_text(
                rt,
                search,
                of,
                bytes,
                &finds,
                &mut budget,
                searched,
                output,
                faults,
            )?;
            if let Goes::Ends = goes {
                return Ok(());
            }
        }
        let goes = match finds.next(rt.alloc(), &mut budget) {
            Ok(Next::Found(find)) => {
                print_lying(rt, search, of, bytes, find, searched, output, faults)?;
                Goes::On
            }
            Ok(Next::Spent(place)) => {
                print_end(search, of, place, bytes.len(), searched, output)?;
                Goes::Ends
            }
            Ok(Next::End) => Goes::Ends,
            Err(_) => {
                print_no_memory(search, of, searched, output, faults)?;
                Goes::Ends
            }
        };
        if let Goes::Ends = goes {
            searched
                .course
                .progress
                .add(bytes.len().saturating_sub(before) as u64);
            return Ok(());
        }
        searched
            .course
            .progress
            .add(finds.place().saturating_sub(before) as u64);
    }
    Ok(())
}

/// Prints a stream that lies in these bytes.
fn print_lying<W: Sink, E: Sink>(
    rt: &HostRuntime,
    search: &Search<'_>,
    of: &Searching<'_>,
    bytes: &[u8],
    find: Lies,
    searched: &mut Searched<'_>,
    output: &mut W,
    faults: &mut E,
) -> Result<(), Failed> {
    let (_, there) = bytes.split_at(find.from.min(bytes.len()));
    let (stream, _) = there.split_at(find.len.min(there.len()));
    let place = Place {
        from: find.from as u64,
        to: (find.from as u64).saturating_add(find.len as u64),
        form: Form::Bytes,
    };
    print_stream(rt, search, of, place, stream, searched, output, faults)
}

/// Prints the streams that these bytes spell before the next header in them, as far as the budget and memory last.
fn search_text<W: Sink, E: Sink>(
    rt: &HostRuntime,
    search: &Search<'_>,
    of: &Searching<'_>,
    bytes: &[u8],
    finds: &Finds<'_>,
    budget: &mut Budget,
    searched: &mut Searched<'_>,
    output: &mut W,
    faults: &mut E,
) -> Result<Goes, Failed> {
    let (text, _) = bytes.split_at(finds.header().unwrap_or(bytes.len()).min(bytes.len()));
    let start = finds.place().min(text.len());
    let mut texts = TextFinds::new(text, start, search.numbers.most);
    'finds: for _ in 0..u64::MAX {
        match texts.next(rt.alloc(), budget) {
            Ok(Next::Found(find)) => {
                print_spelled(rt, search, of, &find, searched, output, faults)?;
            }
            Ok(Next::Spent(place)) => {
                print_end(search, of, place, bytes.len(), searched, output)?;
                return Ok(Goes::Ends);
            }
            Ok(Next::End) => return Ok(Goes::On),
            Err(_) => {
                print_no_memory(search, of, searched, output, faults)?;
                return Ok(Goes::Ends);
            }
        }
    }
    Ok(Goes::Ends)
}

/// Prints a stream that a text spells.
fn print_spelled<W: Sink, E: Sink>(
    rt: &HostRuntime,
    search: &Search<'_>,
    of: &Searching<'_>,
    find: &TextFind,
    searched: &mut Searched<'_>,
    output: &mut W,
    faults: &mut E,
) -> Result<(), Failed> {
    let place = Place {
        from: find.from as u64,
        to: find.to as u64,
        form: find.form,
    };
    print_stream(
        rt,
        search,
        of,
        place,
        &find.stream,
        searched,
        output,
        faults,
    )
}

/// Prints the answer for a stream, and writes the stream to its file where that is asked for. A header alone is counted, and is
/// told only where that is asked for.
fn print_stream<W: Sink, E: Sink>(
    rt: &HostRuntime,
    search: &Search<'_>,
    of: &Searching<'_>,
    place: Place,
    stream: &[u8],
    searched: &mut Searched<'_>,
    output: &mut W,
    faults: &mut E,
) -> Result<(), Failed> {
    let is_header = stream.len() <= HEADER_LEN;
    if is_header {
        searched.headers = searched.headers.saturating_add(1);
        if !search.words.all {
            return Ok(());
        }
    } else {
        searched.finds = searched.finds.saturating_add(1);
    }
    let found = judge(rt.alloc(), &search.rules, stream);
    match found {
        Found::Accepted(_) if is_header => {}
        _ => searched.course.tally.note(&found),
    }
    print_find(search.how.json, &of.path, place, &found, output)?;
    if let Some(folder) = &search.words.carve {
        carve(
            rt,
            search,
            folder.as_str(),
            of,
            place.from,
            stream,
            searched,
            faults,
        );
    }
    Ok(())
}

/// Writes a stream to a new file of this folder, as long as there are not too many. A file that is there is not written over.
/// What fails is told.
fn carve<E: Sink>(
    rt: &HostRuntime,
    search: &Search<'_>,
    folder: &str,
    of: &Searching<'_>,
    from: u64,
    stream: &[u8],
    searched: &mut Searched<'_>,
    faults: &mut E,
) {
    if searched.carved.files >= search.numbers.files {
        searched.carved.more = true;
        return;
    }
    let mut name = String::new(rt.alloc());
    if write_name(&mut name, folder, of, from).is_err() {
        searched.not_carved();
        tell_failure(faults, "out of memory\n");
        return;
    }
    if write_new(rt, folder, name.as_str(), stream).is_err() {
        searched.not_carved();
        tell_unwritten(rt, name, faults);
        return;
    }
    searched.carved.files = searched.carved.files.saturating_add(1);
}

/// Writes the name of the file to which a stream goes: in this folder the number of the file in which it was found, the last part
/// of that one's path, and where the stream begins there. No two streams have one name.
fn write_name(
    name: &mut String,
    folder: &str,
    of: &Searching<'_>,
    from: u64,
) -> Result<(), AllocError> {
    write!(name, "{folder}/{}-", of.number)?;
    let part = match of.file.rsplit_once('/') {
        Some((_, last)) => last,
        None if of.file == "-" => "stdin",
        None => of.file,
    };
    for byte in part.bytes().take(MOST_OF_NAME) {
        name.push(name_char(byte))?;
    }
    write!(name, "-{from}.ser")
}

/// The character of a name that stands for this byte of a path.
fn name_char(byte: u8) -> char {
    match byte {
        b'A'..=b'Z' | b'a'..=b'z' | b'0'..=b'9' | b'.' | b'_' | b'-' => byte as char,
        _ => '_',
    }
}

/// Writes a new file of this folder, which is made where it is missing.
fn write_new(rt: &HostRuntime, folder: &str, name: &str, bytes: &[u8]) -> io::Result<()> {
    fs::create_dir_all(rt, folder)?;
    let mut file = File::create_new(rt, name)?;
    file.write_all(bytes)
}

/// Tells that a file was not written.
fn tell_unwritten<E: Sink>(rt: &HostRuntime, name: String, faults: &mut E) {
    let Ok(path) = FilePath::new(rt.alloc(), name) else {
        tell_failure(faults, "out of memory\n");
        return;
    };
    let mut outbox = Outbox::new();
    write_path(&mut outbox, faults, &path);
    write(&mut outbox, faults, b": not written\n");
    outbox.flush(faults);
}

/// The bytes of a file, or of standard input where it is named `-`. How many were read is told, where progress is.
fn bytes_of_file(rt: &HostRuntime, search: &Search<'_>, file: &str) -> Result<Vec<u8>, Found> {
    let opened = match Opened::new(rt, file) {
        Ok(opened) => opened,
        Err(error) => return Err(unopened(&error)),
    };
    let progress = Progress::new(rt, search.words.progress, "bytes read");
    let mut bytes = Vec::new(rt.alloc());
    match Counted::new(opened, progress).read_to_end(&mut bytes) {
        Ok(_) => Ok(bytes),
        Err(error) if error.kind() == ErrorKind::OutOfMemory => Err(Found::OutOfMemory),
        Err(_) => Err(Found::NotRead(InputFault::Failed)),
    }
}

/// Prints that there was no memory to search a file to its end.
fn print_no_memory<W: Sink, E: Sink>(
    search: &Search<'_>,
    of: &Searching<'_>,
    searched: &mut Searched<'_>,
    output: &mut W,
    faults: &mut E,
) -> Result<(), Failed> {
    searched
        .course
        .print(search.how, &of.path, &Found::OutOfMemory, output, faults)
}

/// Prints that a file was searched to this place alone, which counts as not read.
fn print_end<W: Sink>(
    search: &Search<'_>,
    of: &Searching<'_>,
    place: usize,
    all: usize,
    searched: &mut Searched<'_>,
    output: &mut W,
) -> Result<(), Failed> {
    searched.course.tally.note_unread();
    print_spent(search.how.json, &of.path, place as u64, all as u64, output)
}

/// Prints the counts of all streams and files, and before them that more streams were found than were written.
fn print_searched<E: Sink>(searched: &Searched<'_>, faults: &mut E) {
    let tally = &searched.course.tally;
    let mut outbox = Outbox::new();
    if searched.carved.more {
        write_decimal(&mut outbox, faults, searched.carved.files);
        write(&mut outbox, faults, b" files written, more were found\n");
    }
    write_decimal(&mut outbox, faults, searched.finds);
    write_count(&mut outbox, faults, b" streams in ", searched.files);
    write_count(&mut outbox, faults, b" files, ", tally.accepted);
    write_count(&mut outbox, faults, b" accepted, ", tally.refused);
    write_count(&mut outbox, faults, b" refused, ", tally.unread);
    write_count(&mut outbox, faults, b" not read, ", searched.headers);
    write(&mut outbox, faults, b" headers without a stream\n");
    outbox.flush(faults);
}
