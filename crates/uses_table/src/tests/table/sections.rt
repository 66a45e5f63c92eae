//! Sections of chains, long and short, closed in order and by turns, against a plain list of classes.
ghost use Rattle.std.specs.Prelude.{◌≡◌, ◌<◌, ◌^◌, length};
ghost use Rattle.std.specs.Option.{ForSome};
ghost use Rattle.jser_table.specs.Sections.{HasSection, IsOn, layer_of, HoldsFor};

use super::random::Random;
use super::{add_with_fields, make_layer, number_of, try_close};
use jser_table::{
    BodyKind, Class, Fit, Kind, LayerKind, Purpose, Section, SectionNumber, Sections, Table,
    TableFault,
};
use std::alloc::{AllocGlobal, Global};
use std::process::Abort;
use std::test::Fail;

/// A class: its superclass, its flags, and which of the lists of type codes below are its own.
#[derive(Clone, Copy)]
struct Plain {
    parent: Option<usize>,
    flags: u8,
    fields: Fields,
}

/// Lists of type codes, with what the format says of them.
#[derive(Clone, Copy, PartialEq, Eq)]
enum Fields {
    None,
    Byte,
    All,
    Values,
    /// In no stream, since objects come after raw values there.
    Mixed,
}

impl Fields {
    fn codes(self) -> &'static [u8]
        ensures { length result.now < 2 ^ 15 }
    {
        match self {
            Fields::None => b"",
            Fields::Byte => b"B",
            Fields::All => b"BCDFIJSZ[L",
            Fields::Values => b"L[L",
            Fields::Mixed => b"JLS",
        }
    }

    /// The sizes of the raw values.
    fn sizes(self) -> &'static [u8] {
        match self {
            Fields::None => &[],
            Fields::Byte => &[1],
            Fields::All => &[1, 2, 8, 4, 4, 8, 2, 1],
            Fields::Values => &[],
            Fields::Mixed => &[8, 2],
        }
    }

    /// How many values there are.
    fn values(self) -> u16 {
        match self {
            Fields::None => 0,
            Fields::Byte => 0,
            Fields::All => 2,
            Fields::Values => 3,
            Fields::Mixed => 1,
        }
    }
}

impl Plain {
    fn is_filled(self) -> bool {
        self.fields != Fields::None || self.flags & 0x01 != 0
    }
}

/// Closes one more class, in the table and in the list.
fn add(
    rt: &(impl Abort + AllocGlobal),
    table: &mut Table,
    classes: &mut Vec<Plain>,
    class: Plain,
) -> Result<(), Fail> {
    let parent = number_of(class.parent)?;
    add_with_fields(rt, table, class.flags, class.fields.codes(), parent)?;
    classes.push(class)?;
    Ok(())
}

/// The filled classes of the chain, the highest superclass first.
fn filled_classes(alloc: Global, classes: &[Plain], number: usize) -> Result<Vec<Plain>, Fail> {
    let mut filled = Vec::new(alloc);
    let mut at = Some(number);
    for _ in 0..classes.len() {
        let Some(number) = at else {
            break;
        };
        let Some(class) = classes.get(number) else {
            break;
        };
        if class.is_filled() {
            filled.push(*class)?;
        }
        at = class.parent;
    }
    filled.reverse();
    Ok(filled)
}

/// Compares what the table tells of a section with the class whose it is.
fn compare_section(rt: &impl Abort, table: &Table, number: SectionNumber, class: Plain)
    requires { HasSection table.now.chains number }
{
    compare_counts(rt, table.section(number), class);
    compare_raw_values(rt, table, number, class.fields.sizes());
}

/// Compares what a section holds with its class.
fn compare_counts(rt: &impl Abort, section: Section, class: Plain) {
    let sizes = class.fields.sizes();
    same!(rt; section.values, class.fields.values());
    same!(rt; section.is_annotated, class.flags & 0x01 != 0);
    same!(rt; section.prims as usize, sizes.len());
    same!(rt; u64::from(section.raw_bytes), sum_of(sizes));
}

/// The sum of these sizes.
fn sum_of(sizes: &[u8]) -> u64 {
    let mut sum = 0u64;
    for size in sizes {
        sum = sum.wrapping_add(u64::from(*size));
    }
    sum
}

/// The size of the raw value at this place of a section, if it has one there.
fn raw_size(table: &Table, number: SectionNumber, pos: u16) -> Option<u8>
    requires { HasSection table.now.chains number }
{
    if pos < table.section(number).prims {
        Some(table.prim_size(number, pos))
    } else {
        None
    }
}

/// Compares the raw values of a section with these sizes, which are fewer than ten, and that there are no more.
fn compare_raw_values(rt: &impl Abort, table: &Table, number: SectionNumber, sizes: &[u8])
    requires { HasSection table.now.chains number }
{
    for pos in 0..10u16 {
        let wanted = sizes.get(pos as usize).copied();
        same!(rt; raw_size(table, number, pos), wanted, pos);
    }
}

/// Compares the sections of an object of this class, from the first to the last.
fn compare_sections(
    rt: &impl Abort,
    alloc: Global,
    table: &Table,
    classes: &[Plain],
    number: usize,
) -> Result<(), Fail> {
    let number_in_table = u32::try_from(number)?;
    let filled = filled_classes(alloc, classes, number)?;
    compare_with_filled(rt, table, number_in_table, &filled);
    Ok(())
}

/// Compares the sections of an object of the class with this number with the filled classes of its chain.
fn compare_with_filled(rt: &impl Abort, table: &Table, number: u32, filled: &[Plain]) {
    let Class::Closed(chain) = table.class_at(number) else {
        panic!(rt; "{number} is no closed class");
    };
    match table.sections(chain) {
        Some(sections) => compare_each(rt, table, sections, filled),
        None => holds!(rt; filled.is_empty(), format_args!("number {number}")),
    }
}

/// Compares the sections with the filled classes, in order.
fn compare_each(rt: &impl Abort, table: &Table, sections: Sections, filled: &[Plain])
    requires { IsOn table.now.chains sections.last sections.first }
{
    let Sections { first, last } = sections;
    let mut next = Some(first);
    'sections: for class in filled {
        holds!(rt; next.is_some());
        if let Some(section) = next {
            compare_section(rt, table, section, *class);
            next = table.next_section(last, section);
        }
    }
    holds!(rt; next.is_none());
}

/// A class with fields of random kinds, mostly few.
fn random_class(random: &mut Random, parent: Option<usize>) -> Plain {
    let fields = match random.below(8) {
        0 => Fields::Byte,
        1 => Fields::All,
        2 => Fields::Values,
        3 => Fields::Mixed,
        _ => Fields::None,
    };
    let flags = if random.below(4) == 0 { 0x03 } else { 0x02 };
    Plain {
        parent,
        flags,
        fields,
    }
}

/// A class with one byte.
fn full_class(parent: Option<usize>) -> Plain {
    Plain {
        parent,
        flags: 0x02,
        fields: Fields::Byte,
    }
}

/// Closes 100,000 classes, each under the one that stands so many numbers before it.
fn close_full_classes(
    rt: &(impl Abort + AllocGlobal),
    table: &mut Table,
    classes: &mut Vec<Plain>,
    step: usize,
) -> Result<(), Fail> {
    for number in 0..100_000usize {
        let class = full_class(number.checked_sub(step));
        add(rt, table, classes, class)?;
    }
    Ok(())
}

/// Closes 100,000 classes, each under the one that stands so many numbers before it, and compares the sections of some.
fn compare_full_classes(
    rt: &(impl Abort + AllocGlobal),
    step: usize,
    compared: &[usize],
) -> Result<(), Fail> {
    let mut table = Table::new(rt.alloc(), 100_000);
    let mut classes = Vec::new(rt.alloc());
    close_full_classes(rt, &mut table, &mut classes, step)?;
    compare_some(rt, &table, &classes, compared)
}

/// Compares the sections of the classes with these numbers.
fn compare_some(
    rt: &(impl Abort + AllocGlobal),
    table: &Table,
    classes: &[Plain],
    compared: &[usize],
) -> Result<(), Fail> {
    for number in compared {
        compare_sections(rt, rt.alloc(), table, classes, *number)?;
    }
    Ok(())
}

#[test]
fn sections_of_a_long_chain(rt: HostRuntime) -> Result<(), Fail> {
    compare_full_classes(&rt, 1, &[0, 1, 50_000, 99_999])
}

#[test]
fn sections_of_chains_closed_by_turns(rt: HostRuntime) -> Result<(), Fail> {
    compare_full_classes(&rt, 3, &[0, 2, 49_999, 99_998, 99_999])
}

/// Closes up to 60 classes, each under one before it or under none.
fn close_random_classes(
    rt: &(impl Abort + AllocGlobal),
    random: &mut Random,
    table: &mut Table,
    classes: &mut Vec<Plain>,
) -> Result<(), Fail> {
    for number in 0..(1 + random.below(60)) as usize {
        let parent = match random.below(4) {
            0 if number > 0 => Some(random.below(number as u64) as usize),
            1 => None,
            _ => number.checked_sub(1),
        };
        let class = random_class(random, parent);
        add(rt, table, classes, class)?;
    }
    Ok(())
}

/// Closes random classes, and compares the sections of all.
fn compare_random_classes(
    rt: &(impl Abort + AllocGlobal),
    random: &mut Random,
    table: &mut Table,
) -> Result<(), Fail> {
    let mut classes = Vec::new(rt.alloc());
    close_random_classes(rt, random, table, &mut classes)?;
    compare_all(rt, table, &classes)
}

/// Compares the sections of all classes.
fn compare_all(
    rt: &(impl Abort + AllocGlobal),
    table: &Table,
    classes: &[Plain],
) -> Result<(), Fail> {
    for number in 0..classes.len() {
        compare_sections(rt, rt.alloc(), table, classes, number)?;
    }
    Ok(())
}

/// Compares random classes in so many rounds, each in the table that the round before it left empty.
fn compare_rounds(
    rt: &(impl Abort + AllocGlobal),
    table: &mut Table,
    rounds: u32,
) -> Result<(), Fail> {
    let mut random = Random(23);
    for round in 0..rounds {
        compare_random_classes(rt, &mut random, table)?;
        table.reset();
        same!(rt; table.count(), 0, format_args!("round {round}"));
    }
    Ok(())
}

#[test]
fn sections_of_random_chains(rt: HostRuntime) -> Result<(), Fail> {
    let mut table = Table::new(rt.alloc(), 1000);
    compare_rounds(&rt, &mut table, 300)
}

/// A table with a text, an object, and a class whose superclass has not been read.
fn three_entries(alloc: Global) -> Result<Table, Fail> {
    let mut table = Table::new(alloc, 9);
    assign_three(&mut table)?;
    Ok(table)
}

/// Assigns the handles of these three.
fn assign_three(table: &mut Table) -> Result<(), TableFault> {
    for kind in [Kind::Text, Kind::Other, Kind::Pending] {
        table.assign(kind)?;
    }
    Ok(())
}

/// What each number names in the table of the test below, as a class.
const CLASSES: [(u32, Class); 5] = [
    (0, Class::NoClass),
    (1, Class::NoClass),
    (2, Class::Open),
    (3, Class::NotThere),
    (u32::MAX, Class::NotThere),
];

#[test]
fn class_at(rt: HostRuntime) -> Result<(), Fail> {
    let table = three_entries(rt.alloc())?;
    for (number, class) in &CLASSES {
        same!(rt; table.class_at(*number), *class, format_args!("number {number}"));
    }
    Ok(())
}

/// Doubles, of a class that is externalizable too.
#[test]
fn class_of_an_array(rt: HostRuntime) -> Result<(), Fail> {
    let mut table = three_entries(rt.alloc())?;
    let doubles = LayerKind::Array(BodyKind::Prim(b'D'));
    let layer = make_layer(rt.alloc(), doubles, 0x06, &[])?;
    holds!(rt; try_close(&mut table, 2, layer, None));
    compare_doubles(&rt, &table);
    Ok(())
}

/// What the table tells of that class.
fn compare_doubles(rt: &impl Abort, table: &Table) {
    let Class::Closed(chain) = table.class_at(2) else {
        panic!(rt; "no closed class");
    };
    same!(rt; table.chain_fit(chain, Purpose::Array), Fit::Fits);
    same!(rt; table.element_size(chain), Some(8));
    holds!(rt; table.is_external(chain));
    holds!(rt; table.sections(chain).is_none());
}
