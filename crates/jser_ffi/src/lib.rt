//! The checks for programs in C, and in what calls C: Java, Python, Rust, Go.
//!
//! C passes a slice as a pointer and a length, a handle as a pointer to it, and nothing for `alloc`. `include/serialcheck.h`
//! declares these calls and says what the caller owes.
#![tactic(auto)]

ghost use Rattle.std.specs.Prelude.{◌≡◌, ◌≢◌, ◌⊎◌, ℕ, List, [], None, Some, true, false};
ghost use types.Logic.{sem};
ghost use base.Fml.{flft};
ghost use Rattle.jser_ffi.specs.Lending.{BeginsIn, Checks, IsSpent, Reading, reads};
ghost use Rattle.jser_ffi.specs.declared.compiled.Compiled.{Compiled};
ghost use Rattle.jser_ffi.specs.Compiling.{IsCompiled, IsCompiledFile, SaysFileMisuse, SaysMisuse, TextsAreFaulty};
ghost use Rattle.jser_ffi.specs.Holding.{HoldsSuch};
ghost use Rattle.jser_reader.specs.declared.Reason.{Reason};
ghost use Rattle.jser_reader.specs.ReasonNames.{reason_name};
ghost use Rattle.jser_ffi.specs.Classes.{NamesNone, PutsClass};
ghost use Rattle.jser_commands.specs.Reasons.{reason_meaning};
ghost use Rattle.jser_ffi.specs.Lines.{PutsAny, cause_at, line_of, meaning_at, name_at, version_number};
ghost use Rattle.jser_ffi.specs.Rooms.{Puts};
ghost use Rattle.jser_index.specs.Reading.{IsRefused};
ghost use Rattle.jser_ffi.specs.Texts.{TellsList, TellsText};
ghost use Rattle.jser_ffi.specs.Told.{Says, SaysUnder, TellsRefusal, TextZeros, Zeros, bare_answer, reason_number};
ghost use Rattle.jser_ffi.specs.Streams.{Taken, Begins, BeginsUnder, FeedSays, EndSays, HoldsZeros, IsOver, PutsRefused};
ghost use Rattle.jser_ffi.specs.declared.answer.Answer.{Answer};
ghost use Rattle.jser_ffi.specs.declared.stream.Stream.{Stream};

mod answer;
mod checks;
mod class;
mod compiled;
mod filter_handle;
mod held_filter;
mod held_stream;
mod lent_filter;
mod line;
mod misuse;
mod named;
mod parts;
mod room;
mod stream;
mod stream_handle;
mod text;
mod way;

use answer::{Answer, NO_MEMORY, SPENT, bare};
use class::{class_into, refused_into};
use compiled::{Compiled, compile, compile_file};
use filter_handle::FilterHandle;
use jser_names::Keyed;
use lent_filter::{LentFilter, is_open, pointer_of};
use line::line_into;
use named::{meaning_of_reason, name_of_cause, name_of_reason};
use room::put_any;
use std::alloc::Global;
use stream::Stream;
use stream_handle::StreamHandle;
use text::{list_text, show_text};

/// Checks whether bytes are one stream that the filter of a text admits. The text is read each time.
#[unsafe(no_mangle)]
pub extern "C" fn serialcheck_check(
    alloc: Global,
    bytes: &[u8],
    filter: &[u8],
    flags: u32,
    answer: &mut Answer,
) -> u32
    ensures status { result ≡ answer.new.status }
    ensures says { (result ≡ 0) ⊎ (result ≡ 1) → SaysUnder flags filter.now [] bytes.now answer.new }
    ensures misuse { result ≡ 2 → SaysMisuse flags filter.now [] answer.new }
    ensures known { (result ≡ 0) ⊎ ((result ≡ 1) ⊎ ((result ≡ 2) ⊎ (result ≡ 3))) }
    ensures zeros { Zeros answer.new }
{
    *answer = answer_under(alloc, bytes, filter, flags);
    answer.status
}

/// The answer to a check under the filter of a text.
fn answer_under(alloc: Global, bytes: &[u8], filter: &[u8], flags: u32) -> Answer
    ensures says { (result.status ≡ 0) ⊎ (result.status ≡ 1) → SaysUnder flags filter.now [] bytes.now result }
    ensures misuse { result.status ≡ 2 → SaysMisuse flags filter.now [] result }
    ensures known { (result.status ≡ 0) ⊎ ((result.status ≡ 1) ⊎ ((result.status ≡ 2) ⊎ (result.status ≡ 3))) }
    ensures zeros { Zeros result }
{
    match compile(alloc, filter, &[], flags) {
        Ok(compiled) => compiled.check(bytes),
        Err(answer) => answer,
    }
}

/// Reads a filter's text and a table of modules once. Where the status is 0, the handle holds the filter, and what it held
/// before is let go; else it is as it was.
#[unsafe(no_mangle)]
pub extern "C" fn serialcheck_filter_new(
    alloc: Global,
    text: &[u8],
    modules: &[u8],
    flags: u32,
    answer: &mut Answer,
    filter: &mut FilterHandle,
) -> u32
    ensures status { result ≡ answer.new.status }
    ensures holds { result ≡ 0 → HoldsSuch (IsCompiled flags text.now modules.now) filter.new.owner.held }
    ensures misuse { result ≡ 2 → SaysMisuse flags text.now modules.now answer.new }
    ensures kept { result ≢ 0 → filter.new ≡ filter.old }
    ensures known { (result ≡ 0) ⊎ ((result ≡ 2) ⊎ (result ≡ 3)) }
    ensures zeros { Zeros answer.new }
    ensures bare { result ≢ 2 → answer.new ≡ bare_answer result }
{
    *answer = match compile(alloc, text, modules, flags) {
        Ok(made) => filter.fill(alloc, made),
        Err(answer) => answer,
    };
    answer.status
}

/// Reads the file of a filter and a table of modules once: the lines of a file are pieces, and one that begins with `#` is a
/// comment. Where the status is 0, the handle holds the filter, and what it held before is let go; else it is as it was.
#[unsafe(no_mangle)]
pub extern "C" fn serialcheck_filter_read(
    alloc: Global,
    file: &[u8],
    modules: &[u8],
    flags: u32,
    answer: &mut Answer,
    filter: &mut FilterHandle,
) -> u32
    ensures status { result ≡ answer.new.status }
    ensures holds { result ≡ 0 → HoldsSuch (IsCompiledFile flags file.now modules.now) filter.new.owner.held }
    ensures misuse { result ≡ 2 → SaysFileMisuse flags file.now modules.now answer.new }
    ensures kept { result ≢ 0 → filter.new ≡ filter.old }
    ensures known { (result ≡ 0) ⊎ ((result ≡ 2) ⊎ (result ≡ 3)) }
    ensures zeros { Zeros answer.new }
    ensures bare { result ≢ 2 → answer.new ≡ bare_answer result }
{
    *answer = match compile_file(alloc, file, modules, flags) {
        Ok(compiled) => filter.fill(alloc, compiled),
        Err(answer) => answer,
    };
    answer.status
}

/// Checks whether bytes are one stream that the filter of a handle admits. Any number of threads may ask it at once.
#[unsafe(no_mangle)]
pub unsafe extern "C" fn serialcheck_filter_check(
    filter: &LentFilter,
    bytes: &[u8],
    answer: &mut Answer,
) -> u32
    ghost g: { Reading }
    requires* { sem 𝓛 (reads filter.now.is_open filter.now.at g) }
    ensures* given_back { sem 𝓛 (flft g.life g.share) }
    ensures status { result ≡ answer.new.status }
    ensures says { filter.now.is_open ≡ true → Says g.compiled bytes.now answer.new }
    ensures empty { filter.now.is_open ≡ false → result ≡ 5 }
    ensures zeros { Zeros answer.new }
{
    if is_open(filter) {
        checked_under(&*(pointer_of(filter) as *const Compiled), bytes, answer)
    } else {
        spent(answer)
    }
}

/// Checks bytes under a filter that several threads may have.
fn checked_under(filter: &Compiled, bytes: &[u8], answer: &mut Answer) -> u32
    ensures { Checks filter.now bytes.now answer.new result }
{
    crosses(filter);
    *answer = filter.check(bytes);
    answer.status
}

/// Takes what several threads may have at once.
fn crosses<T: Sync>(_shared: &T) {}

/// The answer where a handle holds nothing.
fn spent(answer: &mut Answer) -> u32
    ensures { IsSpent answer.new result }
{
    *answer = bare(SPENT);
    answer.status
}

/// Lets the filter of a handle go, if it holds one.
#[unsafe(no_mangle)]
pub extern "C" fn serialcheck_filter_free(alloc: Global, filter: &mut FilterHandle)
    ensures { filter.new.owner.held ≡ None }
{
    drop(filter.take(alloc));
}

/// Begins a stream under the filter of a handle. Where the status is 4, the stream's handle holds it, and what it held before
/// is let go; else it is as it was. Any number of threads may begin streams under the filter at once.
#[unsafe(no_mangle)]
pub unsafe extern "C" fn serialcheck_stream_new(
    filter: &LentFilter,
    answer: &mut Answer,
    stream: &mut StreamHandle,
) -> u32
    ghost g: { Reading }
    requires* { sem 𝓛 (reads filter.now.is_open filter.now.at g) }
    ensures* given_back { sem 𝓛 (flft g.life g.share) }
    ensures status { result ≡ answer.new.status }
    ensures begins { filter.now.is_open ≡ true → result ≡ 4 → HoldsSuch (Begins g.compiled) stream.new.owner.held }
    ensures empty { filter.now.is_open ≡ false → result ≡ 5 }
    ensures kept { result ≢ 4 → stream.new ≡ stream.old }
    ensures known { filter.now.is_open ≡ true → (result ≡ 4) ⊎ (result ≡ 3) }
    ensures zeros { Zeros answer.new }
{
    if is_open(filter) {
        begun_under(&*(pointer_of(filter) as *const Compiled), answer, stream)
    } else {
        none_begun(answer, stream)
    }
}

/// Begins a stream under a filter that several threads may have.
fn begun_under(filter: &Compiled, answer: &mut Answer, stream: &mut StreamHandle) -> u32
    ensures { BeginsIn filter.now stream.old stream.new answer.new result }
{
    crosses(filter);
    *answer = begun(filter, stream);
    answer.status
}

/// The answer where a handle holds nothing under which a stream could begin.
fn none_begun(answer: &mut Answer, stream: &mut StreamHandle) -> u32
    ensures { IsSpent answer.new result × (stream.new ≡ stream.old) }
{
    let _ = stream;
    spent(answer)
}

/// Begins a stream under the filter of a text.
#[unsafe(no_mangle)]
pub extern "C" fn serialcheck_stream_new_text(
    alloc: Global,
    text: &[u8],
    modules: &[u8],
    flags: u32,
    answer: &mut Answer,
    stream: &mut StreamHandle,
) -> u32
    ensures status { result ≡ answer.new.status }
    ensures begins { result ≡ 4 → HoldsSuch (BeginsUnder flags text.now modules.now) stream.new.owner.held }
    ensures misuse { result ≡ 2 → SaysMisuse flags text.now modules.now answer.new }
    ensures kept { result ≢ 4 → stream.new ≡ stream.old }
    ensures known { (result ≡ 4) ⊎ ((result ≡ 2) ⊎ (result ≡ 3)) }
    ensures zeros { Zeros answer.new }
{
    *answer = match compile(alloc, text, modules, flags) {
        Ok(compiled) => begun(&compiled, stream),
        Err(answer) => answer,
    };
    answer.status
}

/// Begins a stream under a filter.
fn begun(compiled: &Compiled, stream: &mut StreamHandle) -> Answer
    ensures begins { result.status ≡ 4 → HoldsSuch (Begins compiled.now) stream.new.owner.held }
    ensures kept { result.status ≢ 4 → stream.new ≡ stream.old }
    ensures known { (result.status ≡ 4) ⊎ (result.status ≡ 3) }
    ensures zeros { Zeros result }
{
    match Stream::new(compiled) {
        Ok(new) => stream.fill(compiled.alloc, new),
        Err(_) => bare(NO_MEMORY),
    }
}

/// Takes the next bytes of a stream. After every answer but 4 it can only be ended, and answers the same.
#[unsafe(no_mangle)]
pub extern "C" fn serialcheck_stream_feed(
    alloc: Global,
    stream: &mut StreamHandle,
    bytes: &[u8],
    answer: &mut Answer,
) -> u32
    ensures status { result ≡ answer.new.status }
    ensures says { (old : Stream) → stream.old.owner.held ≡ Some old → (taken : List ℕ) → Taken old taken
        → HoldsSuch (λ new. FeedSays old new taken bytes.now answer.new) stream.new.owner.held }
    ensures stops { stream.old.owner.held ≢ None → result ≢ 4 → HoldsSuch (IsOver answer.new) stream.new.owner.held }
    ensures over { (old : Stream) → stream.old.owner.held ≡ Some old → (before : Answer) → IsOver before old → (answer.new ≡ before) × (stream.new.owner.held ≡ Some old) }
    ensures empty { stream.old.owner.held ≡ None → (result ≡ 5) × (stream.new.owner.held ≡ None) }
    ensures zeros { HoldsZeros stream.old.owner.held → Zeros answer.new × HoldsZeros stream.new.owner.held }
{
    *answer = match stream.take(alloc) {
        Some(mut open) => {
            let answer = open.feed(bytes);
            stream.put(alloc, open);
            answer
        }
        None => bare(SPENT),
    };
    answer.status
}

/// Ends a stream, answers what the check of all its bytes says, and lets it go.
#[unsafe(no_mangle)]
pub extern "C" fn serialcheck_stream_end(
    alloc: Global,
    stream: &mut StreamHandle,
    answer: &mut Answer,
) -> u32
    ensures status { result ≡ answer.new.status }
    ensures says { (old : Stream) → stream.old.owner.held ≡ Some old → (taken : List ℕ) → Taken old taken → EndSays old taken answer.new }
    ensures over { (old : Stream) → stream.old.owner.held ≡ Some old → (before : Answer) → IsOver before old → answer.new ≡ before }
    ensures empty { stream.old.owner.held ≡ None → result ≡ 5 }
    ensures zeros { HoldsZeros stream.old.owner.held → Zeros answer.new }
    ensures gone { stream.new.owner.held ≡ None }
{
    *answer = match stream.take(alloc) {
        Some(mut open) => open.finish(),
        None => bare(SPENT),
    };
    answer.status
}

/// Writes the text of `show` of a stream into a room, or as many of its first bytes as the room has; the answer has the length
/// of the whole text. Of a text of more than `most` bytes no more is made: the answer is 6 then, with no length.
#[unsafe(no_mangle)]
pub extern "C" fn serialcheck_show(
    alloc: Global,
    bytes: &[u8],
    most: usize,
    room: &mut [u8],
    answer: &mut Answer,
) -> u32
    ensures status { result ≡ answer.new.status }
    ensures shown { TellsText most bytes.now room.old room.new answer.new }
    ensures refused { result ≡ 1 → TellsRefusal (IsRefused bytes.now) answer.new }
    ensures kept { (result ≡ 1) ⊎ (result ≡ 3) → room.new ≡ room.old }
    ensures known { (result ≡ 0) ⊎ ((result ≡ 1) ⊎ ((result ≡ 3) ⊎ (result ≡ 6))) }
    ensures zeros { TextZeros answer.new }
{
    *answer = show_text(alloc, bytes, most, room);
    answer.status
}

/// Writes the text of `list` of a stream into a room, or as many of its first bytes as the room has; the answer has the length
/// of the whole text. Of a text of more than `most` bytes no more is made: the answer is 6 then, with no length. The filter of a
/// text and of a table of modules is asked about each name, and refuses nothing. Names are counted under the key, which changes
/// no answer: bindings/c/empty.c takes one from the system.
#[unsafe(no_mangle)]
pub extern "C" fn serialcheck_list_keyed(
    alloc: Global,
    key: u64,
    bytes: &[u8],
    filter: &[u8],
    modules: &[u8],
    most: usize,
    room: &mut [u8],
    answer: &mut Answer,
) -> u32
    ensures status { result ≡ answer.new.status }
    ensures listed { TellsList filter.now modules.now most bytes.now room.old room.new answer.new }
    ensures refused { result ≡ 1 → TellsRefusal (IsRefused bytes.now) answer.new }
    ensures misuse { result ≡ 2 → TextsAreFaulty filter.now modules.now answer.new }
    ensures kept { (result ≡ 1) ⊎ ((result ≡ 2) ⊎ (result ≡ 3)) → room.new ≡ room.old }
    ensures known { (result ≡ 0) ⊎ ((result ≡ 1) ⊎ ((result ≡ 2) ⊎ ((result ≡ 3) ⊎ (result ≡ 6)))) }
    ensures zeros { TextZeros answer.new }
{
    let keyed = Keyed::new(key);
    *answer = list_text(alloc, keyed, bytes, filter, modules, most, room);
    answer.status
}

/// Lets a stream go, if the handle holds one.
#[unsafe(no_mangle)]
pub extern "C" fn serialcheck_stream_free(alloc: Global, stream: &mut StreamHandle)
    ensures { stream.new.owner.held ≡ None }
{
    drop(stream.take(alloc));
}

/// The version of the library: its three numbers, in eight bits each.
#[unsafe(no_mangle)]
pub extern "C" fn serialcheck_version() -> u32
    ensures { result ≡ version_number 0 1 0 }
{
    0x000100
}

/// Writes the name of the reason with a number into a room, as the program prints it.
#[tactic(auto, using(crate::proofs::LineLemmas::named))]
#[unsafe(no_mangle)]
pub extern "C" fn serialcheck_reason_name(reason: u32, room: &mut [u8], answer: &mut Answer) -> u32
    ensures status { result ≡ answer.new.status }
    ensures named { PutsAny (name_at reason) room.old room.new answer.new }
    ensures right { (why : Reason) → reason_number why ≡ reason → Puts (reason_name why) room.old room.new answer.new }
    ensures zeros { TextZeros answer.new }
{
    *answer = put_any(name_of_reason(reason), room);
    answer.status
}

/// Writes what the reason with a number means into a room: a sentence.
#[tactic(auto, using(crate::proofs::LineLemmas::means))]
#[unsafe(no_mangle)]
pub extern "C" fn serialcheck_reason_text(reason: u32, room: &mut [u8], answer: &mut Answer) -> u32
    ensures status { result ≡ answer.new.status }
    ensures told { PutsAny (meaning_at reason) room.old room.new answer.new }
    ensures right { (why : Reason) → reason_number why ≡ reason → Puts (reason_meaning why) room.old room.new answer.new }
    ensures zeros { TextZeros answer.new }
{
    *answer = put_any(meaning_of_reason(reason), room);
    answer.status
}

/// Writes the name of the cause of a misuse with a number into a room.
#[unsafe(no_mangle)]
pub extern "C" fn serialcheck_cause_name(cause: u32, room: &mut [u8], answer: &mut Answer) -> u32
    ensures status { result ≡ answer.new.status }
    ensures named { PutsAny (cause_at cause) room.old room.new answer.new }
    ensures zeros { TextZeros answer.new }
{
    *answer = put_any(name_of_cause(cause), room);
    answer.status
}

/// Writes the line that the program prints of an answer into a room.
#[unsafe(no_mangle)]
pub extern "C" fn serialcheck_line(
    alloc: Global,
    answer: &Answer,
    room: &mut [u8],
    told: &mut Answer,
) -> u32
    ensures status { result ≡ told.new.status }
    ensures puts { result ≢ 3 → PutsAny (line_of answer.now) room.old room.new told.new }
    ensures kept { result ≡ 3 → room.new ≡ room.old }
    ensures known { (result ≡ 0) ⊎ ((result ≡ 3) ⊎ ((result ≡ 5) ⊎ (result ≡ 6))) }
    ensures zeros { TextZeros told.new }
{
    *told = line_into(alloc, answer, room);
    told.status
}

/// Writes the class name that the answer to a check of these bytes says was not let pass into a room, quoted as the program
/// prints it.
#[unsafe(no_mangle)]
pub extern "C" fn serialcheck_class(
    alloc: Global,
    bytes: &[u8],
    answer: &Answer,
    room: &mut [u8],
    told: &mut Answer,
) -> u32
    ensures status { result ≡ told.new.status }
    ensures puts { (result ≡ 0) ⊎ (result ≡ 6) → PutsClass bytes.now answer.now room.old room.new told.new }
    ensures spent { result ≡ 5 → NamesNone bytes.now answer.now }
    ensures kept { (result ≡ 3) ⊎ (result ≡ 5) → room.new ≡ room.old }
    ensures known { (result ≡ 0) ⊎ ((result ≡ 3) ⊎ ((result ≡ 5) ⊎ (result ≡ 6))) }
    ensures zeros { TextZeros told.new }
{
    *told = class_into(alloc, bytes, answer, room);
    told.status
}

/// Writes the class name for which a stream was refused into a room, quoted as the program prints it: that of its last answer, of
/// `serialcheck_stream_feed`. The stream stays as it is.
#[unsafe(no_mangle)]
pub extern "C" fn serialcheck_stream_class(
    alloc: Global,
    stream: &mut StreamHandle,
    room: &mut [u8],
    told: &mut Answer,
) -> u32
    ensures status { result ≡ told.new.status }
    ensures puts { (result ≡ 0) ⊎ (result ≡ 6) → HoldsSuch (λ now. PutsRefused now room.old room.new told.new) stream.old.owner.held }
    ensures empty { stream.old.owner.held ≡ None → result ≡ 5 }
    ensures stays { stream.new.owner.held ≡ stream.old.owner.held }
    ensures kept { (result ≡ 3) ⊎ (result ≡ 5) → room.new ≡ room.old }
    ensures known { (result ≡ 0) ⊎ ((result ≡ 3) ⊎ ((result ≡ 5) ⊎ (result ≡ 6))) }
    ensures zeros { TextZeros told.new }
{
    *told = match stream.take(alloc) {
        Some(held) => {
            let answer = refused_into(alloc, &held, room);
            stream.put(alloc, held);
            answer
        }
        None => bare(SPENT),
    };
    told.status
}
