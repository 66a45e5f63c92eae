//! What the calls of jser_table cost: `rt run -- tables 1000` makes so many thousand calls of each on chains of several
//! lengths, and prints tenths of nanoseconds a call.

ghost use Rattle.std.specs.Prelude.{◌≡◌, slice_get, IsTrue};
ghost use Rattle.jser_table.specs.Entries.{is_pending, is_closed};
ghost use Rattle.jser_table.specs.Sections.{IsOn};

use anyhow::{Result, bail, ensure};
use jser_table::{Class, Codes, Entry, Kind, Layer, LayerKind, SectionNumber, Sections, Table};
use std::alloc::{AllocError, Global};
use std::rt::Clock;
use std::time::Instant;

/// A chain of so many classes, of which the first and each one that comes so many later has a field.
#[derive(Clone, Copy)]
struct Shape {
    classes: u32,
    step: u32,
}

const SHAPES: [Shape; 6] = [
    Shape {
        classes: 1,
        step: 1,
    },
    Shape {
        classes: 2,
        step: 1,
    },
    Shape {
        classes: 3,
        step: 1,
    },
    Shape {
        classes: 10,
        step: 1,
    },
    Shape {
        classes: 1000,
        step: 1,
    },
    Shape {
        classes: 1000,
        step: 500,
    },
];

/// Makes so many calls of each, and prints nothing.
pub fn make_calls(rt: &impl Clock, alloc: Global, calls: u32) -> Result<()> {
    time_texts(rt, alloc, calls)?;
    for shape in SHAPES {
        measure(rt, alloc, shape, calls)?;
    }
    Ok(())
}

/// Makes so many calls of each, and prints what they cost.
pub fn print_costs(rt: &HostRuntime, calls: u32) -> Result<()> {
    let texts = time_texts(rt, rt.alloc(), calls)?;
    println!(rt; "assign of a text: {texts}")?;
    for shape in SHAPES {
        let costs = measure(rt, rt.alloc(), shape, calls)?;
        print_shape(rt, shape, costs)?;
    }
    Ok(())
}

/// Prints what the calls cost on a chain of this shape.
fn print_shape(rt: &HostRuntime, shape: Shape, costs: Costs) -> Result<()> {
    let Shape { classes, step } = shape;
    let Costs {
        class,
        first,
        section,
        layer,
    } = costs;
    println!(rt;
        "{classes} classes, one in {step} filled: a class {class}, its sections {first}, the next section {section}, by layers {layer}"
    )?;
    Ok(())
}

/// Tenths of nanoseconds.
#[derive(Clone, Copy)]
struct Costs {
    /// Of a class: `assign` of its handle, and `close`.
    class: u64,
    /// Of `class_at` and `sections`.
    first: u64,
    /// Of `section` and `next_section`.
    section: u64,
    /// Of `layer` and `next_filled`, which tell the same of a section.
    layer: u64,
}

/// Measures all calls on a chain of this shape.
fn measure(rt: &impl Clock, alloc: Global, shape: Shape, calls: u32) -> Result<Costs> {
    let mut table = Table::new(alloc, 10_000);
    measure_in(rt, alloc, &mut table, shape, calls)
}

/// Measures all calls on a chain of this shape that this table has.
fn measure_in(
    rt: &impl Clock,
    alloc: Global,
    table: &mut Table,
    shape: Shape,
    calls: u32,
) -> Result<Costs> {
    let class = time_classes(rt, alloc, table, shape, calls)?;
    let first = time_first(rt, table, shape, calls)?;
    let section = time_sections(rt, table, shape, calls)?;
    let layer = time_layers(rt, table, shape, calls)?;
    Ok(Costs {
        class,
        first,
        section,
        layer,
    })
}

/// The tenths of nanoseconds since then for each of so many calls.
fn tenths_each(rt: &impl Clock, start: Instant, calls: u64) -> Result<u64> {
    let nanos = u64::try_from(start.elapsed(rt)?.as_nanos())?;
    Ok(nanos.saturating_mul(10) / calls.max(1))
}

/// Assigns so many texts in a new table.
fn time_texts(rt: &impl Clock, alloc: Global, calls: u32) -> Result<u64> {
    let mut table = Table::new(alloc, calls);
    time_texts_in(rt, &mut table, calls)
}

/// Assigns so many texts.
fn time_texts_in(rt: &impl Clock, table: &mut Table, calls: u32) -> Result<u64> {
    let start = Instant::now(rt)?;
    for _ in 0..calls {
        table.assign(Kind::Text)?;
    }
    tenths_each(rt, start, u64::from(calls))
}

/// Closes chains of this shape, until so many classes are closed.
fn time_classes(
    rt: &impl Clock,
    alloc: Global,
    table: &mut Table,
    shape: Shape,
    calls: u32,
) -> Result<u64> {
    let turns = (calls / shape.classes.max(1)).saturating_add(1);
    let start = Instant::now(rt)?;
    for _ in 0..turns {
        table.reset();
        build(alloc, table, shape)?;
    }
    tenths_each(rt, start, u64::from(turns) * u64::from(shape.classes))
}

/// Closes a chain of this shape.
fn build(alloc: Global, table: &mut Table, shape: Shape) -> Result<()> {
    for index in 0..shape.classes {
        let number = table.assign(Kind::Pending)?;
        let filled = index % shape.step.max(1) == 0;
        let layer = make_layer(alloc, filled)?;
        ensure!(
            try_close(table, number, layer, number.checked_sub(1)),
            "a class was not closed"
        );
    }
    Ok(())
}

/// A layer with one field of one byte, or with none.
fn make_layer(alloc: Global, filled: bool) -> Result<Layer, AllocError> {
    let codes = if filled {
        Codes::new(vec![in alloc; b'B']?)
    } else {
        Codes::new(Vec::new(alloc))
    };
    Ok(Layer {
        kind: LayerKind::Other,
        flags: 0x02,
        codes,
    })
}

/// Closes an entry, where it is pending and its parent closed.
fn try_close(table: &mut Table, number: u32, layer: Layer, parent: Option<u32>) -> bool {
    if !is_pending(table, number) {
        return false;
    }
    if let Some(parent) = parent {
        if !is_closed(table, parent) {
            return false;
        }
    }
    table.close(number, layer, parent);
    true
}

fn is_pending(table: &Table, number: u32) -> bool
    ensures { result ≡ is_pending (slice_get table.now.entries number) }
{
    matches!(table.get(number), Some(Entry::Pending))
}

fn is_closed(table: &Table, number: u32) -> bool
    ensures { result ≡ is_closed (slice_get table.now.entries number) }
{
    matches!(table.get(number), Some(Entry::Closed(_)))
}

/// Asks so many times for the sections of the classes in turn, and once in each turn for one that is not there.
fn time_first(rt: &impl Clock, table: &Table, shape: Shape, calls: u32) -> Result<u64> {
    let mut number = 0u32;
    let mut bytes = 0u64;
    let start = Instant::now(rt)?;
    for _ in 0..calls {
        number = number.checked_sub(1).unwrap_or(shape.classes);
        bytes = bytes.wrapping_add(first_bytes(table, number));
    }
    let tenths = tenths_each(rt, start, u64::from(calls))?;
    let turns = u64::from(calls).div_ceil(u64::from(shape.classes) + 1);
    ensure!(
        bytes.saturating_add(turns) == u64::from(calls),
        "a wrong first section"
    );
    Ok(tenths)
}

/// How many raw bytes the first section of this class has.
fn first_bytes(table: &Table, number: u32) -> u64 {
    let Class::Closed(chain) = table.class_at(number) else {
        return 0;
    };
    match table.sections(chain) {
        Some(Sections { first, .. }) => u64::from(table.section(first).raw_bytes),
        None => 0,
    }
}

/// Goes over the sections of the class that was closed last, until there were so many.
fn time_sections(rt: &impl Clock, table: &Table, shape: Shape, calls: u32) -> Result<u64> {
    let own = shape.classes.saturating_sub(1);
    let Class::Closed(chain) = table.class_at(own) else {
        bail!("the class is not closed");
    };
    let Some(Sections { first, last }) = table.sections(chain) else {
        bail!("the class has no sections");
    };
    let filled = 1 + own / shape.step.max(1);
    let turns = (calls / filled).saturating_add(1);
    let mut bytes = 0u64;
    let start = Instant::now(rt)?;
    for _ in 0..turns {
        bytes = bytes.wrapping_add(raw_bytes(table, first, last, filled));
    }
    let tenths = tenths_each(rt, start, bytes)?;
    ensure!(
        bytes == u64::from(turns) * u64::from(filled),
        "wrong sections"
    );
    Ok(tenths)
}

/// How many raw bytes there are in these sections, of which there are at most so many.
fn raw_bytes(table: &Table, first: SectionNumber, last: SectionNumber, most: u32) -> u64
    requires { IsOn table.now.chains last first }
{
    let mut bytes = 0u64;
    let mut next = Some(first);
    'sections: for _ in 0..most {
        let Some(section) = next else {
            return bytes;
        };
        bytes = bytes.wrapping_add(u64::from(table.section(section).raw_bytes));
        next = table.next_section(last, section);
    }
    bytes
}

/// How many nanoseconds it takes to ask for the layers of a section, one by one.
fn time_layers(rt: &impl Clock, table: &Table, shape: Shape, calls: u32) -> Result<u64> {
    let own = shape.classes.saturating_sub(1);
    ensure!(is_closed(table, own), "the class is not closed");
    let filled = 1 + own / shape.step.max(1);
    let turns = (calls / filled / 10).saturating_add(1);
    let mut bytes = 0u64;
    let start = Instant::now(rt)?;
    for _ in 0..turns {
        bytes = bytes.wrapping_add(layer_codes(table, own, filled));
    }
    let tenths = tenths_each(rt, start, bytes)?;
    ensure!(
        bytes == u64::from(turns) * u64::from(filled),
        "wrong layers"
    );
    Ok(tenths)
}

/// How many type codes the filled layers of this class have, of which there are at most so many.
fn layer_codes(table: &Table, number: u32, most: u32) -> u64
    requires { IsTrue (is_closed (slice_get table.now.entries number)) }
{
    let mut codes = 0u64;
    let mut from = 0usize;
    for _ in 0..most {
        let Some(index) = table.next_filled(number, from) else {
            return codes;
        };
        if index < table.layers(number) {
            codes = codes.wrapping_add(table.layer(number, index).codes().len() as u64);
        }
        from = index.saturating_add(1);
    }
    codes
}
