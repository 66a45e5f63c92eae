//! Random runs against a plain list of chains, and what a hostile chain costs.
ghost use Rattle.std.specs.Prelude.{◌<◌, ◌≡◌, length, slice_get, IsTrue};
ghost use Rattle.jser_table.specs.Entries.{is_closed, chain_at};

use super::{add_class, flags_and_fields, is_closed, is_pending, make_layer, number_of, try_close};
use jser_table::{Entry, Kind, LayerKind, Table, TableFault};
use std::alloc::{AllocError, AllocGlobal, Global};
use std::io;
use std::process::Abort;
use std::test::Fail;
use std::time::{Clock, Instant};

/// A linear congruential generator (Knuth's MMIX), so that each run is the same.
#[derive(Drop)]
pub(super) struct Random(pub(super) u64);

impl Random {
    /// A number below this one.
    pub(super) fn below(&mut self, bound: u64) -> u64
        requires { 0 < bound }
        ensures { result < bound }
    {
        self.0 = self
            .0
            .wrapping_mul(6364136223846793005)
            .wrapping_add(1442695040888963407);
        (self.0 >> 33) % bound
    }
}

/// What the model keeps of a layer.
#[derive(Clone, Copy, PartialEq, Eq, Debug)]
struct Mark {
    flags: u8,
    codes: usize,
}

impl Mark {
    fn is_filled(self) -> bool {
        self.codes != 0 || self.flags & 0x01 != 0
    }

    fn is_serial(self) -> bool {
        self.flags & 0x02 != 0
    }
}

/// What the model says of an entry.
#[derive(Drop)]
enum Expected {
    Text,
    Other,
    Pending,
    Closed(Vec<Mark>),
}

/// A random layer: mostly serializable, and mostly with nothing to read.
fn random_mark(random: &mut Random) -> Mark {
    let flags = match random.below(8) {
        0 => 0x00,
        1 => 0x03,
        _ => 0x02,
    };
    let codes = if random.below(6) == 0 { 2 } else { 0 };
    Mark { flags, codes }
}

/// The parent's chain with one more layer.
fn chain_under(
    alloc: Global,
    expected: &[Expected],
    parent: Option<usize>,
    mark: Mark,
) -> Result<Vec<Mark>, AllocError> {
    let mut chain = Vec::new(alloc);
    if let Some(parent) = parent {
        if let Some(Expected::Closed(above)) = expected.get(parent) {
            chain.extend_from_slice(above.as_slice())?;
        }
    }
    chain.push(mark)?;
    Ok(chain)
}

/// The number of an entry that is chosen at random, if there is one.
fn random_number(random: &mut Random, expected: &[Expected]) -> Option<usize> {
    if expected.is_empty() {
        return None;
    }
    Some(random.below(expected.len() as u64) as usize)
}

/// A closed entry that is chosen at random, if the choice falls on one.
fn random_parent(random: &mut Random, expected: &[Expected]) -> Option<usize> {
    let choice = random_number(random, expected)?;
    matches!(expected.get(choice), Some(Expected::Closed(_))).then_some(choice)
}

/// Compares all that the table tells of a closed entry.
fn compare_chain(rt: &impl Abort, table: &Table, number: u32, chain: &[Mark]) {
    holds!(rt; is_closed(table, number));
    compare_whole_chain(rt, table, number, chain);
    compare_layers(rt, table, number, chain);
}

/// Whether each of these layers is serializable.
fn all_serial(chain: &[Mark]) -> bool {
    for mark in chain {
        if !mark.is_serial() {
            return false;
        }
    }
    true
}

/// Compares what the table tells of the whole chain of a closed entry.
fn compare_whole_chain(rt: &impl Abort, table: &Table, number: u32, chain: &[Mark])
    requires { IsTrue (is_closed (slice_get table.now.entries number)) }
{
    same!(rt; table.layers(number), chain.len());
    same!(rt; table.all_serial(number), all_serial(chain));
    same!(rt; table.next_filled(number, chain.len()), None);
    same!(rt; table.next_filled(number, usize::MAX), None);
}

/// Compares the layers of a closed entry, and for each of them where the next filled one is.
fn compare_layers(rt: &impl Abort, table: &Table, number: u32, chain: &[Mark])
    requires { IsTrue (is_closed (slice_get table.now.entries number)) }
{
    let mut next = None;
    for (index, mark) in chain.iter().enumerate().rev() {
        if mark.is_filled() {
            next = Some(index);
        }
        same!(rt; table.next_filled(number, index), next);
        compare_layer(rt, table, number, index, *mark);
    }
}

/// Compares one layer of a closed entry.
fn compare_layer(rt: &impl Abort, table: &Table, number: u32, index: usize, mark: Mark)
    requires { IsTrue (is_closed (slice_get table.now.entries number)) }
{
    holds!(rt; index < table.layers(number));
    let layer = table.layer(number, index);
    same!(rt; flags_and_fields(layer), (mark.flags, mark.codes));
}

/// Compares an entry with what the model says of it.
fn compare_entry(rt: &impl Abort, table: &Table, number: u32, expected: &Expected) {
    match expected {
        Expected::Text => holds!(rt; matches!(table.get(number), Some(Entry::Text))),
        Expected::Other => holds!(rt; matches!(table.get(number), Some(Entry::Other))),
        Expected::Pending => holds!(rt; is_pending(table, number)),
        Expected::Closed(chain) => compare_chain(rt, table, number, chain.as_slice()),
    }
}

/// Adds a layer of this mark under that parent, to the table and to the model.
fn close_both(
    rt: &impl Abort,
    alloc: Global,
    table: &mut Table,
    expected: &mut Vec<Expected>,
    number: usize,
    mark: Mark,
    parent: Option<usize>,
) -> Result<(), Fail> {
    close_in_table(rt, alloc, table, number, mark, parent)?;
    let chain = chain_under(alloc, expected.as_slice(), parent, mark)?;
    if let Some(entry) = expected.get_mut(number) {
        *entry = Expected::Closed(chain);
    }
    Ok(())
}

/// Adds a layer of this mark under that parent, to the table.
fn close_in_table(
    rt: &impl Abort,
    alloc: Global,
    table: &mut Table,
    number: usize,
    mark: Mark,
    parent: Option<usize>,
) -> Result<(), Fail> {
    let own = u32::try_from(number)?;
    let above = number_of(parent)?;
    let codes = [b'L'; 2];
    let layer = make_layer(
        alloc,
        LayerKind::Other,
        mark.flags,
        &codes[..mark.codes.min(2)],
    )?;
    holds!(rt; try_close(table, own, layer, above), format_args!("number {number}"));
    Ok(())
}

/// Assigns a handle in the table and in the model, each of which has room for so many.
fn assign_both(
    rt: &impl Abort,
    table: &mut Table,
    expected: &mut Vec<Expected>,
    room: usize,
    kind: Kind,
) -> Result<(), Fail> {
    let number = expected.len();
    let answer = table.assign(kind);
    if number == room {
        same!(rt; answer, Err(TableFault::Full));
        return Ok(());
    }
    same!(rt; answer, Ok(u32::try_from(number)?));
    expected.push(match kind {
        Kind::Text => Expected::Text,
        Kind::Other => Expected::Other,
        Kind::Pending => Expected::Pending,
    })?;
    Ok(())
}

/// Adds a random layer to the table and to the model, mostly under the last one.
fn add_both(
    rt: &(impl Abort + AllocGlobal),
    random: &mut Random,
    table: &mut Table,
    expected: &mut Vec<Expected>,
) -> Result<(), Fail> {
    let number = expected.len();
    assign_both(rt, table, expected, 3000, Kind::Pending)?;
    let parent = match random.below(16) {
        0 => random_parent(random, expected.as_slice()),
        _ => number.checked_sub(1),
    };
    let mark = random_mark(random);
    close_both(rt, rt.alloc(), table, expected, number, mark, parent)
}

/// Adds 2400 random layers to the table and to the model.
fn add_many(
    rt: &(impl Abort + AllocGlobal),
    table: &mut Table,
    expected: &mut Vec<Expected>,
) -> Result<(), Fail> {
    let mut random = Random(7);
    for _ in 0..2400 {
        add_both(rt, &mut random, table, expected)?;
    }
    Ok(())
}

/// Compares some of these entries, and the last ten.
fn compare_some(rt: &impl Abort, table: &Table, expected: &[Expected]) -> Result<(), Fail> {
    for (number, entry) in expected.iter().enumerate() {
        if number % 97 == 0 || number >= 2390 {
            compare_entry(rt, table, u32::try_from(number)?, entry);
        }
    }
    Ok(())
}

/// Adds those layers, and compares some entries.
fn add_and_compare(
    rt: &(impl Abort + AllocGlobal),
    table: &mut Table,
    expected: &mut Vec<Expected>,
) -> Result<(), Fail> {
    add_many(rt, table, expected)?;
    compare_some(rt, table, expected.as_slice())
}

#[test]
fn long_random_chains(rt: HostRuntime) -> Result<(), Fail> {
    let mut table = Table::new(rt.alloc(), 3000);
    let mut expected = Vec::new(rt.alloc());
    add_and_compare(&rt, &mut table, &mut expected)
}

/// How many handles there may be at once in the test below.
const ROOM: usize = 200;

/// Closes an entry that is chosen at random, where it is pending.
fn close_any(
    rt: &(impl Abort + AllocGlobal),
    random: &mut Random,
    table: &mut Table,
    expected: &mut Vec<Expected>,
) -> Result<(), Fail> {
    let Some(number) = random_number(random, expected.as_slice()) else {
        return Ok(());
    };
    if !matches!(expected.get(number), Some(Expected::Pending)) {
        return Ok(());
    }
    let parent = random_parent(random, expected.as_slice());
    let mark = random_mark(random);
    close_both(rt, rt.alloc(), table, expected, number, mark, parent)
}

/// Does one thing that is chosen at random, to the table and to the model.
fn operate(
    rt: &(impl Abort + AllocGlobal),
    random: &mut Random,
    table: &mut Table,
    expected: &mut Vec<Expected>,
) -> Result<(), Fail> {
    let kind = match random.below(8) {
        0 | 1 if expected.len() == ROOM && random.below(4) == 0 => {
            table.reset();
            expected.clear();
            return Ok(());
        }
        0 => Kind::Text,
        1 => Kind::Other,
        2..=4 => Kind::Pending,
        _ => return close_any(rt, random, table, expected),
    };
    assign_both(rt, table, expected, ROOM, kind)
}

/// Compares an entry that is chosen at random.
fn compare_any(
    rt: &impl Abort,
    random: &mut Random,
    table: &Table,
    expected: &[Expected],
) -> Result<(), Fail> {
    same!(rt; table.count() as usize, expected.len());
    if let Some(number) = random_number(random, expected) {
        if let Some(entry) = expected.get(number) {
            compare_entry(rt, table, u32::try_from(number)?, entry);
        }
    }
    Ok(())
}

/// Does 3000 things that are chosen at random, and compares an entry after each.
fn operate_often(
    rt: &(impl Abort + AllocGlobal),
    table: &mut Table,
    expected: &mut Vec<Expected>,
) -> Result<(), Fail> {
    let mut random = Random(11);
    for _ in 0..3000 {
        operate(rt, &mut random, table, expected)?;
        compare_any(rt, &mut random, table, expected.as_slice())?;
    }
    Ok(())
}

#[test]
fn random_operations(rt: HostRuntime) -> Result<(), Fail> {
    let mut table = Table::new(rt.alloc(), 200);
    let mut expected: Vec<Expected> = Vec::new(rt.alloc());
    operate_often(&rt, &mut table, &mut expected)
}

/// A chain of so many classes, all with nothing to read, under one another.
fn empty_chain(
    rt: &(impl Abort + AllocGlobal),
    table: &mut Table,
    classes: u32,
) -> Result<(), Fail> {
    for number in 0..classes {
        let own = add_class(rt, table, LayerKind::Other, 0x02, number.checked_sub(1))?;
        same!(rt; own, number);
    }
    Ok(())
}

/// How often a call is made whose cost is told.
const CALLS: u32 = 1_000_000;

/// The nanoseconds of a call of `layer`, at layers chosen at random.
fn cost_of_layer(
    rt: &(impl Abort + Clock),
    random: &mut Random,
    table: &Table,
    own: u32,
    layers: u32,
) -> io::Result<u128>
    requires closed { IsTrue (is_closed (slice_get table.now.entries own)) }
    requires layers { length (chain_at table.now.entries own) ≡ layers }
    requires not_empty { 0 < layers }
{
    let start = Instant::now(rt)?;
    let mut flags: u64 = 0;
    for _ in 0..CALLS {
        let index = random.below(u64::from(layers)) as usize;
        flags = flags.wrapping_add(u64::from(table.layer(own, index).flags()));
    }
    let spent = start.elapsed(rt)?;
    same!(rt; flags, 2 * u64::from(CALLS));
    Ok(spent.as_nanos() / u128::from(CALLS))
}

/// The nanoseconds of a call of `next_filled`, at layers chosen at random.
fn cost_of_next_filled(
    rt: &(impl Abort + Clock),
    random: &mut Random,
    table: &Table,
    own: u32,
    layers: u32,
) -> io::Result<u128>
    requires closed { IsTrue (is_closed (slice_get table.now.entries own)) }
    requires not_empty { 0 < layers }
{
    let start = Instant::now(rt)?;
    for _ in 0..CALLS {
        let index = random.below(u64::from(layers)) as usize;
        holds!(rt; table.next_filled(own, index).is_none());
    }
    let spent = start.elapsed(rt)?;
    Ok(spent.as_nanos() / u128::from(CALLS))
}

/// How many classes the long chain has whose cost is told.
const CLASSES: u32 = 60_000;

/// The nanoseconds of a call of `layer` and of one of `next_filled`, in the long chain of this table.
fn costs_of_chain(rt: &(impl Abort + Clock), table: &Table) -> io::Result<(u128, u128)> {
    let own = CLASSES - 1;
    holds!(rt; is_closed(table, own));
    holds!(rt; table.layers(own) == CLASSES as usize);
    let mut random = Random(3);
    let layer = cost_of_layer(rt, &mut random, table, own, CLASSES)?;
    let next = cost_of_next_filled(rt, &mut random, table, own, CLASSES)?;
    Ok((layer, next))
}

/// The nanoseconds of a call of `layer` and of one of `next_filled`, in a new table with the long chain.
fn costs_of_long_chain(rt: &(impl Abort + AllocGlobal + Clock)) -> Result<(u128, u128), Fail> {
    let mut table = Table::new(rt.alloc(), CLASSES);
    empty_chain(rt, &mut table, CLASSES)?;
    Ok(costs_of_chain(rt, &table)?)
}

/// What a chain of 60,000 empty classes costs: the times go to standard error.
#[test]
fn cost_of_a_long_chain(rt: HostRuntime) -> Result<(), Fail> {
    let (layer, next) = costs_of_long_chain(&rt)?;
    eprintln!(rt; "layer: {layer} ns a call; next_filled: {next} ns a call")?;
    Ok(())
}
