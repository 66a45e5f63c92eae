//! Records that are lines of text. A line is taken whole where it fits the room for what waits, else piece after piece.

ghost use Rattle.std.specs.Prelude.{◌≡◌, ◌⊎◌, ◌≤◌, ◌<◌, ◌+◌, ◌^◌, ◌==◌, ◌++◌, ◌∷◌, ℕ, List, [], length, take, drop, true, false, if◌then◌else◌, Option, IfSome, OnOk, Ok, Some, None};
ghost use Rattle.std.specs.Io.KnownBytes.{IsAtEnd};
ghost use Rattle.jser_inputs.specs.declared.Form.{Form as ToldForm};
ghost use Rattle.jser_records.specs.Arriving.{HasNone, IsBefore, IsOver, room_size};
ghost use Rattle.jser_records.specs.Fields.{IsBare};
ghost use Rattle.jser_records.specs.Held.{Holds, HoldsMore, HoldsSame, Keeps};
ghost use Rattle.jser_records.specs.Keys.{HasLostKey, HasNoKey, IsKeyOf, longer_key};
ghost use Rattle.jser_records.specs.Lines.{FieldCame, JudgesKey, LineCame, LineEndsTo, StretchTakes, TakesFirst, TakesLine, end_of};
ghost use Rattle.jser_records.specs.Readings.{Came, HasSpelled, HasStopped, IsOfDigits, IsReady};
ghost use Rattle.jser_records.specs.Readings.{Value as ToldValue};
ghost use Rattle.jser_records.specs.Records.{RecordsGoTo, RecordsTo};
ghost use Rattle.jser_records.specs.Stretches.{InStretch, IsApart, PieceEnds, value_stretch};
ghost use Rattle.jser_records.specs.Texts.{behind_mark, characters_in, is_null, mark_in, mark_size};
ghost use Rattle.jser_records.specs.declared.layout.Shape.TheVariants as Shape;

use crate::answer::Answer;
use crate::clerk::Clerk;
use crate::current::Record;
use crate::inbox::Inbox;
use crate::layout::{Lines, Spelling};
use crate::parts::{Parts, parts_of};
use crate::reading::Reading;
use crate::run::{Trouble, read_more};
use jser_inputs::Form;
use jser_prim::{Sink, Source};
use memchr::memchr;

/// Where a line is that comes in pieces.
#[derive(Clone, Copy, PartialEq, Eq, Debug)]
enum Stretch {
    /// In the value, which is the last field.
    LastValue,
    /// In the value, which another field may follow.
    Value,
    /// Behind it.
    Behind,
}

/// Reads records that are lines, to the end of the input.
pub(crate) fn read_lines<R: Source, W: Sink, E: Sink>(
    inbox: &mut Inbox<'_, R>,
    clerk: &mut Clerk<'_>,
    lines: Lines,
    output: &mut W,
    faults: &mut E,
) -> Result<(), Trouble>
    requires sought { inbox.old.sought ≡ end_of lines }
    ensures records { RecordsTo W.gone_out W.has_failed E.gone_out E.has_failed result (Shape.Lines lines) clerk.old clerk.new inbox.old inbox.new output.old output.new faults.old faults.new }
    ensures over { OnOk result (IsOver inbox.new) }
{
    'lines: for _ in 0..u64::MAX {
        match next_line(inbox, clerk, lines, output, faults) {
            Ok(true) => {}
            Ok(false) => return Ok(()),
            Err(trouble) => return Err(trouble),
        }
    }
    // No input has so many lines.
    Err(Trouble::Read)
}

/// Reads the next line, or more of the input where its end is not there. `false` at the end of the input.
fn next_line<R: Source, W: Sink, E: Sink>(
    inbox: &mut Inbox<'_, R>,
    clerk: &mut Clerk<'_>,
    lines: Lines,
    output: &mut W,
    faults: &mut E,
) -> Result<bool, Trouble>
    requires sought { inbox.old.sought ≡ end_of lines }
    ensures records { RecordsTo W.gone_out W.has_failed E.gone_out E.has_failed result (Shape.Lines lines) clerk.old clerk.new inbox.old inbox.new output.old output.new faults.old faults.new }
    ensures over { result ≡ Ok false → IsOver inbox.new }
    ensures sought { OnOk result (inbox.new.sought ≡ inbox.old.sought) }
{
    match inbox.find() {
        Some(count) => {
            take_whole_line(inbox, &mut clerk.current, lines, count);
            end_line(clerk, lines, output, faults);
            Ok(true)
        }
        None if inbox.is_full() => read_long_line(inbox, clerk, lines, output, faults),
        None => match read_more(inbox, clerk, output, faults) {
            Ok(true) => Ok(true),
            Ok(false) => {
                take_last_line(inbox, clerk, lines, output, faults);
                Ok(false)
            }
            Err(trouble) => Err(trouble),
        },
    }
}

/// Takes a line of so many bytes and its end, which wait.
fn take_whole_line<R: Source>(
    inbox: &mut Inbox<'_, R>,
    current: &mut Record<'_>,
    lines: Lines,
    count: usize,
)
    requires before { IsBefore (end_of lines) inbox.old.waiting count }
    requires within { count < room_size }
    ensures takes { TakesLine lines inbox.old inbox.new current.new }
    ensures keeps { Keeps current.old current.new }
    ensures sought { inbox.new.sought ≡ inbox.old.sought }
{
    take_line(current, lines, inbox.front(count), line_end(lines));
    inbox.pass(count + 1);
}

/// What is left at the end of the input is the last line, if it has a byte.
fn take_last_line<R: Source, W: Sink, E: Sink>(
    inbox: &mut Inbox<'_, R>,
    clerk: &mut Clerk<'_>,
    lines: Lines,
    output: &mut W,
    faults: &mut E,
)
    requires none { HasNone (end_of lines) inbox.old.waiting }
    requires ends { IsAtEnd inbox.old.to_come }
    ensures records { RecordsGoTo W.gone_out W.has_failed E.gone_out E.has_failed (Shape.Lines lines) clerk.old clerk.new inbox.old inbox.new output.old output.new faults.old faults.new }
    ensures over { IsOver inbox.new }
    ensures sought { inbox.new.sought ≡ inbox.old.sought }
{
    let count = inbox.waiting().len();
    if count == 0 {
        return;
    }
    take_line(&mut clerk.current, lines, inbox.front(count), &[]);
    inbox.pass(count);
    end_line(clerk, lines, output, faults);
}

/// A line was taken, and ends.
#[tactic(auto, using(crate::proofs::LineLemmas::line_closed))]
fn end_line<W: Sink, E: Sink>(clerk: &mut Clerk<'_>, lines: Lines, output: &mut W, faults: &mut E)
    ensures ends { LineEndsTo W.gone_out W.has_failed E.gone_out E.has_failed lines clerk.old clerk.new output.old output.new faults.old faults.new }
{
    judge_key(&mut clerk.current.reading, lines);
    clerk.close(output, faults);
}

/// Where a reader of lines may end one in its KEY, that is the answer, unless a NUL ends lines.
fn judge_key(reading: &mut Reading<'_>, lines: Lines)
    ensures { JudgesKey lines reading.old reading.new }
{
    if !lines.zero && reading.key.has_line_end() {
        reading.decide(Answer::LineEndInKey);
    }
}

/// The bytes that end a line.
fn line_end(lines: Lines) -> &'static [u8]
    ensures { result.now ≡ end_of lines ∷ [] }
{
    if lines.zero { &[0] } else { b"\n" }
}

/// Takes a whole line, without its end, which is told beside it.
fn take_line(current: &mut Record<'_>, lines: Lines, line: &[u8], end: &[u8])
    ensures came { LineCame lines line.now current.new.reading }
    ensures held { Holds current.new (line.now ++ end.now) }
    ensures keeps { Keeps current.old current.new }
{
    current.begin(lines.spelling.form);
    current.hold(line);
    current.hold(end);
    let _ = take_front(current, lines, without_return(lines, line));
}

/// A line without the carriage return at its end.
fn without_return(lines: Lines, line: &[u8]) -> &[u8]
    ensures bare { IsBare lines line.now result.now }
    ensures within { length result.now ≤ length line.now }
{
    match line {
        [front @ .., b'\r'] if !lines.zero => front,
        _ => line,
    }
}

/// Takes the first bytes of a line, all of its KEY before the value among them.
fn take_front(current: &mut Record<'_>, lines: Lines, line: &[u8]) -> Stretch
    ensures came { FieldCame lines line.now current.old.reading current.new.reading }
    ensures on { room_size ≤ length line.now + 1 → IsReady current.old.reading lines.spelling.form → HasNoKey current.old.reading.key
        → InStretch result lines.spelling lines.field line.now current.new.reading }
    ensures held { HoldsSame current.old current.new }
    ensures keeps { Keeps current.old current.new }
{
    let parts = parts_of(line, lines.field);
    let (before, rest) = line.split_at(parts.from);
    take_before(current, parts, before);
    let (value, behind) = rest.split_at(parts.to - parts.from);
    take_value_front(current, lines.spelling, value);
    match behind {
        [] => value_stretch(lines),
        _ => {
            take_behind(current, behind, parts.from == 0);
            Stretch::Behind
        }
    }
}

/// In the value.
fn value_stretch(lines: Lines) -> Stretch
    ensures { result ≡ value_stretch lines.field }
{
    match lines.field {
        None => Stretch::LastValue,
        Some(_) => Stretch::Value,
    }
}

/// Takes what is before a value: the fields there, if there is one.
#[tactic(auto, using(crate::proofs::KeyLemmas::key_before, crate::proofs::KeyLemmas::key_first, crate::proofs::StretchLemmas::stopped_keyed, crate::proofs::StretchLemmas::stopped_none, crate::proofs::LineLemmas::ready_keyed, crate::proofs::HeldLemmas::holds_keyed, crate::proofs::HeldLemmas::keeps_keyed))]
fn take_before(current: &mut Record<'_>, parts: Parts, before: &[u8])
    requires within { parts.front ≤ length before.now }
    ensures ready { (form : ToldForm) → IsReady current.old.reading form → IsReady current.new.reading form }
    ensures key { HasNoKey current.old.reading.key → IsKeyOf current.new.reading.key (if parts.from == 0 then None else Some (take parts.front before.now)) }
    ensures stopped { HasNoKey current.old.reading.key → HasLostKey current.new.reading.key → HasStopped current.new.reading }
    ensures held { HoldsSame current.old current.new }
    ensures keeps { Keeps current.old current.new }
{
    if parts.from > 0 {
        let (front, _) = before.split_at(parts.front);
        current.reading.add_key(front);
    }
}

/// Takes what is behind a value, from the TAB on. It is the first of the KEY where nothing is before the value.
#[tactic(auto, using(crate::proofs::KeyLemmas::key_behind_first, crate::proofs::StretchLemmas::stopped_keyed, crate::proofs::LineLemmas::came_keyed, crate::proofs::HeldLemmas::holds_keyed, crate::proofs::HeldLemmas::keeps_keyed))]
fn take_behind(current: &mut Record<'_>, behind: &[u8], is_first: bool)
    ensures came { (value : ToldValue) → Came current.old.reading value → Came current.new.reading value }
    ensures key { 0 < length behind.now → (has : Option (List ℕ)) → IsKeyOf current.old.reading.key has
        → IsKeyOf current.new.reading.key (longer_key has (drop (if is_first then 1 else 0) behind.now)) }
    ensures stopped { 0 < length behind.now → HasLostKey current.new.reading.key → HasStopped current.new.reading }
    ensures held { HoldsSame current.old current.new }
    ensures keeps { Keeps current.old current.new }
{
    if let [_, rest @ ..] = behind {
        if is_first {
            current.reading.add_key(rest);
        } else {
            current.reading.add_key(behind);
        }
    }
}

/// Takes the first characters of a value: a null, or a mark before hexadecimal digits, is known by them.
#[tactic(auto, using(crate::proofs::HeldLemmas::holds_kept, crate::proofs::HeldLemmas::keeps_rules, crate::proofs::HeldLemmas::keeps_both))]
fn take_value_front(current: &mut Record<'_>, spelling: Spelling, value: &[u8])
    ensures null { is_null value.now ≡ true → current.old.reading.answer ≡ None → current.new.reading.answer ≡ Some Answer.Null }
    ensures text { is_null value.now ≡ false → current.old.reading.answer ≡ None → IsOfDigits spelling.form → length value.now < 2 ^ 63 → HasSpelled current.old.reading spelling.form 0 []
        → HasSpelled current.new.reading spelling.form (mark_in spelling.form value.now) (characters_in spelling.copy (behind_mark spelling.form value.now)) }
    ensures kept { IfSome current.old.reading.answer (λ a. current.new.reading.answer ≡ Some a) }
    ensures held { HoldsSame current.old current.new }
    ensures key { current.new.reading.key ≡ current.old.reading.key }
    ensures keeps { Keeps current.old current.new }
{
    if is_null(value) {
        current.reading.decide_null();
        return;
    }
    let marked = match spelling.form {
        Form::Hex => mark_len(value),
        Form::Binary | Form::Base64 | Form::Base64Url => 0,
    };
    current.reading.skip(marked);
    let (_, digits) = value.split_at(marked);
    current.spell(spelling, digits);
}

/// Whether these characters stand for no value.
fn is_null(value: &[u8]) -> bool
    ensures { result ≡ is_null value.now }
{
    match value {
        [b'\\', b'N'] => true,
        _ => false,
    }
}

/// How long the mark before hexadecimal digits is.
fn mark_len(value: &[u8]) -> usize
    ensures is { result ≡ mark_size value.now }
    ensures within { result ≤ length value.now }
{
    match value {
        [b'\\', b'\\', b'x', ..] => 3,
        [b'\\', b'x', ..] | [b'0', b'x', ..] => 2,
        _ => 0,
    }
}

/// Reads a line that does not fit the room, which is full of its first bytes. Always `true`.
fn read_long_line<R: Source, W: Sink, E: Sink>(
    inbox: &mut Inbox<'_, R>,
    clerk: &mut Clerk<'_>,
    lines: Lines,
    output: &mut W,
    faults: &mut E,
) -> Result<bool, Trouble>
    requires sought { inbox.old.sought ≡ end_of lines }
    requires none { HasNone (end_of lines) inbox.old.waiting }
    requires long { length inbox.old.waiting ≡ room_size }
    ensures records { RecordsTo W.gone_out W.has_failed E.gone_out E.has_failed result (Shape.Lines lines) clerk.old clerk.new inbox.old inbox.new output.old output.new faults.old faults.new }
    ensures over { result ≡ Ok false → IsOver inbox.new }
    ensures sought { OnOk result (inbox.new.sought ≡ inbox.old.sought) }
{
    let mut stretch = first_stretch(inbox, &mut clerk.current, lines);
    'stretches: for _ in 0..u64::MAX {
        match next_stretch(inbox, &mut clerk.current, lines, stretch) {
            Some(next) => stretch = next,
            None => {
                end_line(clerk, lines, output, faults);
                return Ok(true);
            }
        }
        match read_more(inbox, clerk, output, faults) {
            Ok(_) => {}
            Err(trouble) => return Err(trouble),
        }
    }
    // No line comes in so many pieces.
    Err(Trouble::Read)
}

/// Takes the first bytes of a long line, all that wait but for a last one that belongs together with the next.
fn first_stretch<R: Source>(
    inbox: &mut Inbox<'_, R>,
    current: &mut Record<'_>,
    lines: Lines,
) -> Stretch
    requires none { HasNone (end_of lines) inbox.old.waiting }
    requires long { length inbox.old.waiting ≡ room_size }
    ensures takes { TakesFirst lines result inbox.old inbox.new current.new }
    ensures sought { inbox.new.sought ≡ inbox.old.sought }
    ensures keeps { Keeps current.old current.new }
{
    let count = whole_count(inbox.waiting());
    let stretch = begin_line(current, lines, inbox.front(count));
    inbox.pass(count);
    stretch
}

/// Takes the next bytes of a long line that wait. `None` where these are the last ones.
fn next_stretch<R: Source>(
    inbox: &mut Inbox<'_, R>,
    current: &mut Record<'_>,
    lines: Lines,
    stretch: Stretch,
) -> Option<Stretch>
    requires sought { inbox.old.sought ≡ end_of lines }
    ensures takes { StretchTakes lines stretch inbox.old inbox.new current.old current.new result }
    ensures sought { inbox.new.sought ≡ inbox.old.sought }
    ensures keeps { Keeps current.old current.new }
{
    match inbox.find() {
        Some(count) => {
            take_last_piece(current, lines, stretch, inbox.front(count));
            current.hold(line_end(lines));
            inbox.pass(count + 1);
            None
        }
        None if inbox.is_over() => {
            let count = inbox.waiting().len();
            take_last_piece(current, lines, stretch, inbox.front(count));
            inbox.pass(count);
            None
        }
        None => {
            let count = whole_count(inbox.waiting());
            let next = take_piece(current, lines, stretch, inbox.front(count));
            inbox.pass(count);
            Some(next)
        }
    }
}

/// How many of the bytes that wait may be taken before the next ones come: not a last one that belongs together with the next.
fn whole_count(waiting: &[u8]) -> usize
    ensures within { result ≤ length waiting.now }
    ensures most { length waiting.now ≤ result + 1 }
    ensures clean { length waiting.now ≤ result → (front : List ℕ) → waiting.now ≡ front ++ (0x0D ∷ []) → ⊥ }
    ensures marked { length waiting.now ≤ result → (front : List ℕ) → waiting.now ≡ front ++ (0x5C ∷ []) → ⊥ }
    ensures left { result < length waiting.now → (drop result waiting.now ≡ 0x0D ∷ []) ⊎ (drop result waiting.now ≡ 0x5C ∷ []) }
{
    match waiting {
        [front @ .., b'\r'] | [front @ .., b'\\'] => front.len(),
        _ => waiting.len(),
    }
}

/// Begins a long line by its first bytes.
fn begin_line(current: &mut Record<'_>, lines: Lines, front: &[u8]) -> Stretch
    ensures on { room_size ≤ length front.now + 1 → InStretch result lines.spelling lines.field front.now current.new.reading }
    ensures keeps { Keeps current.old current.new }
    ensures held { Holds current.new front.now }
{
    current.begin(lines.spelling.form);
    current.hold(front);
    take_front(current, lines, front)
}

/// Takes one more piece of a long line.
fn take_piece(current: &mut Record<'_>, lines: Lines, stretch: Stretch, piece: &[u8]) -> Stretch
    ensures on { (line : List ℕ) → room_size ≤ length line + 1 → IsApart line piece.now → InStretch stretch lines.spelling lines.field line current.old.reading
        → InStretch result lines.spelling lines.field (line ++ piece.now) current.new.reading }
    ensures keeps { Keeps current.old current.new }
    ensures held { HoldsMore current.old current.new piece.now }
{
    current.hold(piece);
    take_text(current, lines.spelling, stretch, piece)
}

/// Takes the last piece of a long line, without its end.
fn take_last_piece(current: &mut Record<'_>, lines: Lines, stretch: Stretch, piece: &[u8])
    ensures ends { (line : List ℕ) → room_size ≤ length line + 1 → IsApart line piece.now → InStretch stretch lines.spelling lines.field line current.old.reading
        → PieceEnds lines line piece.now current.new.reading }
    ensures keeps { Keeps current.old current.new }
    ensures held { HoldsMore current.old current.new piece.now }
{
    current.hold(piece);
    let _ = take_text(
        current,
        lines.spelling,
        stretch,
        without_return(lines, piece),
    );
}

/// Takes the text of a piece.
#[tactic(auto, using(crate::proofs::HeldLemmas::holds_keyed, crate::proofs::HeldLemmas::keeps_keyed))]
fn take_text(current: &mut Record<'_>, spelling: Spelling, stretch: Stretch, text: &[u8]) -> Stretch
    ensures on { (asked : Option ℕ) (line : List ℕ) → room_size ≤ length line + 1 → IsApart line text.now → InStretch stretch spelling asked line current.old.reading
        → InStretch result spelling asked (line ++ text.now) current.new.reading }
    ensures keeps { Keeps current.old current.new }
    ensures held { HoldsSame current.old current.new }
{
    match stretch {
        Stretch::Behind => {
            current.reading.add_key(text);
            Stretch::Behind
        }
        Stretch::LastValue => {
            take_last_value(current, spelling, text);
            Stretch::LastValue
        }
        Stretch::Value => take_value(current, spelling, text),
    }
}

/// Takes the text of a piece, in the value, which is the last field.
#[tactic(auto, using(crate::proofs::HeldLemmas::holds_refused, crate::proofs::HeldLemmas::keeps_rules))]
fn take_last_value(current: &mut Record<'_>, spelling: Spelling, text: &[u8])
    ensures on { (asked : Option ℕ) (line : List ℕ) → room_size ≤ length line + 1 → IsApart line text.now → InStretch Stretch.LastValue spelling asked line current.old.reading
        → InStretch Stretch.LastValue spelling asked (line ++ text.now) current.new.reading }
    ensures keeps { Keeps current.old current.new }
    ensures held { HoldsSame current.old current.new }
{
    // One more field: so many bytes before the value are no KEY.
    if memchr(b'\t', text).is_some() {
        current.reading.lose_key();
    } else {
        current.spell(spelling, text);
    }
}

/// Takes the text of a piece, in the value, which another field may follow.
fn take_value(current: &mut Record<'_>, spelling: Spelling, text: &[u8]) -> Stretch
    ensures on { (asked : Option ℕ) (line : List ℕ) → room_size ≤ length line + 1 → IsApart line text.now → InStretch Stretch.Value spelling asked line current.old.reading
        → InStretch result spelling asked (line ++ text.now) current.new.reading }
    ensures keeps { Keeps current.old current.new }
    ensures held { HoldsSame current.old current.new }
{
    match memchr(b'\t', text) {
        Some(at) => {
            let (value, behind) = text.split_at(at);
            current.spell(spelling, value);
            let is_first = !current.reading.key.is_there();
            take_behind(current, behind, is_first);
            Stretch::Behind
        }
        None => {
            current.spell(spelling, text);
            Stretch::Value
        }
    }
}
