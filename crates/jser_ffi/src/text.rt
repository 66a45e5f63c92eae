//! The texts of `show` and of `list` in a room that C brings.
ghost use Rattle.std.specs.Prelude.{◌≡◌, ◌⊎◌};
ghost use Rattle.jser_index.specs.Reading.{IsRefused};
ghost use Rattle.jser_shown.specs.Counting.{tally_lines};
ghost use Rattle.jser_commands.specs.Lines.{words_on};
ghost use Rattle.jser_ffi.specs.Compiling.{TextsAreFaulty};
ghost use Rattle.jser_ffi.specs.Rooms.{PutsUpTo};
ghost use Rattle.jser_ffi.specs.Texts.{HasText, PutsShown, TellsList, TellsNames, TellsText};
ghost use Rattle.jser_ffi.specs.Told.{TellsRefusal, TextZeros};

use crate::answer::{Answer, NO_MEMORY, bare, refused};
use crate::compiled::filter_with;
use crate::room::put_start;
use jser_commands::{start_of_list, start_of_show};
use jser_filter::Filter;
use jser_index::Index;
use jser_names::{Found, Keyed, NameCounts, names_in};
use jser_reader::Stop;
use jser_shown::laws::counted;
use std::alloc::Global;

/// The answer to the text of `show` that is wanted in a room. No more than one byte beyond `most` is made of it.
#[tactic(auto, using(crate::proofs::ZeroLemmas::no_text, crate::proofs::ZeroLemmas::memory_text))]
pub(crate) fn show_text(alloc: Global, bytes: &[u8], most: usize, room: &mut [u8]) -> Answer
    ensures shown { TellsText most bytes.now room.old room.new result }
    ensures refused { result.status ≡ 1 → TellsRefusal (IsRefused bytes.now) result }
    ensures kept { (result.status ≡ 1) ⊎ (result.status ≡ 3) → room.new ≡ room.old }
    ensures known { (result.status ≡ 0) ⊎ ((result.status ≡ 1) ⊎ ((result.status ≡ 3) ⊎ (result.status ≡ 6))) }
    ensures zeros { TextZeros result }
{
    match Index::read(alloc, bytes) {
        Ok(index) => put_show(alloc, &index, most, room),
        Err(Stop::Refused(refusal)) => refused(refusal, 0),
        Err(_) => bare(NO_MEMORY),
    }
}

/// Puts the text of `show` of a stream into a room.
fn put_show(alloc: Global, index: &Index<&[u8]>, most: usize, room: &mut [u8]) -> Answer
    ensures shown { PutsShown most index.now room.old room.new result }
    ensures kept { result.status ≡ 3 → room.new ≡ room.old }
    ensures known { (result.status ≡ 0) ⊎ ((result.status ≡ 3) ⊎ (result.status ≡ 6)) }
    ensures zeros { TextZeros result }
{
    match start_of_show(alloc, false, index, most as u64) {
        Ok(start) => put_start(&start, most, room),
        Err(_) => bare(NO_MEMORY),
    }
}

/// The answer to the text of `list` that is wanted in a room, under the filter of a text and of a table of modules. No more than
/// one byte beyond `most` is made of it. Names are counted under this key.
#[tactic(auto, using(crate::proofs::TextLemmas::lists_under, crate::proofs::ZeroLemmas::misuse_text))]
pub(crate) fn list_text(
    alloc: Global,
    keyed: Keyed,
    bytes: &[u8],
    text: &[u8],
    modules: &[u8],
    most: usize,
    room: &mut [u8],
) -> Answer
    ensures listed { TellsList text.now modules.now most bytes.now room.old room.new result }
    ensures refused { result.status ≡ 1 → TellsRefusal (IsRefused bytes.now) result }
    ensures misuse { result.status ≡ 2 → TextsAreFaulty text.now modules.now result }
    ensures kept { (result.status ≡ 1) ⊎ ((result.status ≡ 2) ⊎ (result.status ≡ 3)) → room.new ≡ room.old }
    ensures known { (result.status ≡ 0) ⊎ ((result.status ≡ 1) ⊎ ((result.status ≡ 2) ⊎ ((result.status ≡ 3) ⊎ (result.status ≡ 6)))) }
    ensures zeros { TextZeros result }
{
    match filter_with(alloc, text, modules) {
        Ok(filter) => list_under(alloc, keyed, bytes, &filter, most, room),
        Err(answer) => answer,
    }
}

/// The answer under a filter.
#[tactic(auto, using(crate::proofs::TextLemmas::lists_names, crate::proofs::ZeroLemmas::no_text, crate::proofs::ZeroLemmas::memory_text))]
fn list_under(
    alloc: Global,
    keyed: Keyed,
    bytes: &[u8],
    filter: &Filter,
    most: usize,
    room: &mut [u8],
) -> Answer
    ensures listed { TellsNames filter.now most bytes.now room.old room.new result }
    ensures refused { result.status ≡ 1 → TellsRefusal (IsRefused bytes.now) result }
    ensures kept { (result.status ≡ 1) ⊎ (result.status ≡ 3) → room.new ≡ room.old }
    ensures known { (result.status ≡ 0) ⊎ ((result.status ≡ 1) ⊎ ((result.status ≡ 3) ⊎ (result.status ≡ 6))) }
    ensures zeros { TextZeros result }
{
    counted();
    match names_in(alloc, keyed, bytes) {
        Ok(Found { names, .. }) => put_list(alloc, filter, &names, most, room),
        Err(Stop::Refused(fault)) => refused(fault, 0),
        Err(_) => bare(NO_MEMORY),
    }
}

/// Puts the text of `list` of these names into a room.
fn put_list(
    alloc: Global,
    filter: &Filter,
    names: &NameCounts,
    most: usize,
    room: &mut [u8],
) -> Answer
    ensures listed { HasText result → PutsUpTo most (tally_lines (words_on filter.now) names.now) room.old room.new result }
    ensures kept { result.status ≡ 3 → room.new ≡ room.old }
    ensures known { (result.status ≡ 0) ⊎ ((result.status ≡ 3) ⊎ (result.status ≡ 6)) }
    ensures zeros { TextZeros result }
{
    put_start(
        &start_of_list(alloc, filter, names, most as u64),
        most,
        room,
    )
}
