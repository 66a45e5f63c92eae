//! What large filters and tables cost: the times go to standard error.
use super::judge;
use jser_filter::{Filter, Modules, Verdict};
use jser_prim::units_of;
use std::alloc::{AllocError, Global};
use std::fmt::Write;
use std::io;
use std::process::Abort;
use std::test::Fail;
use std::time::{Clock, Instant};

const NAMES: u32 = 2000;

const LINES: u32 = 50_000;

const CALLS: u32 = 200_000;

/// Appends an exact name with the end of its piece.
fn push_name(text: &mut String, number: u32) -> Result<(), AllocError> {
    write!(text, "com.example.shop.model.Item{number};")
}

/// Appends many exact names.
fn push_names(text: &mut String) -> Result<(), AllocError> {
    for number in 0..NAMES {
        push_name(text, number)?;
    }
    Ok(())
}

/// Appends many exact names, and a piece that rejects all others.
fn push_pieces(text: &mut String) -> Result<(), AllocError> {
    push_names(text)?;
    text.push_str("!*")
}

/// A filter's text of many exact names, and `!*` at its end.
fn exact_names(alloc: Global) -> Result<String, AllocError> {
    let mut text = String::new(alloc);
    push_pieces(&mut text)?;
    Ok(text)
}

/// Appends the line for a package.
fn push_line(text: &mut String, number: u32) -> Result<(), AllocError> {
    write!(text, "com.example.part{number}=shop{number}\n")
}

/// Appends lines for many packages.
fn push_lines(text: &mut String) -> Result<(), AllocError> {
    for number in 0..LINES {
        push_line(text, number)?;
    }
    Ok(())
}

/// A table with many lines.
fn many_lines(alloc: Global) -> Result<String, AllocError> {
    let mut text = String::new(alloc);
    push_lines(&mut text)?;
    Ok(text)
}

/// The filter of many exact names allows the last one, and rejects one that it lacks.
fn judge_two(rt: &impl Abort, filter: &Filter, last: &[u16], lacking: &[u16]) {
    holds!(rt; judge(filter, last) == Some(Verdict::Allowed(1999)));
    holds!(rt; judge(filter, lacking) == Some(Verdict::Rejected(2000)));
}

/// The nanoseconds of a call of `judge` for these two names, the last one of the filter and one that it lacks.
fn cost_of_judge(
    rt: &(impl Abort + Clock),
    filter: &Filter,
    last: &[u16],
    lacking: &[u16],
) -> io::Result<u128> {
    let start = Instant::now(rt)?;
    for _ in 0..CALLS {
        judge_two(rt, filter, last, lacking);
    }
    let spent = start.elapsed(rt)?.as_nanos();
    Ok(spent / (2 * u128::from(CALLS)))
}

/// The filter of many exact names.
fn filter_of_names(alloc: Global) -> Result<Filter, Fail> {
    let text = exact_names(alloc)?;
    Ok(Filter::parse(alloc, &text)?)
}

/// The nanoseconds of a call for the last of those names and for one that is lacking.
fn cost_for_names(rt: &(impl Abort + Clock), alloc: Global, filter: &Filter) -> Result<u128, Fail> {
    let last = units_of(alloc, "com.example.shop.model.Item1999")?;
    let lacking = units_of(alloc, "com.example.shop.model.Item2000")?;
    Ok(cost_of_judge(rt, filter, &last, &lacking)?)
}

/// The nanoseconds of a call of the filter of many exact names.
fn cost_by_names(rt: &(impl Abort + Clock), alloc: Global) -> Result<u128, Fail> {
    let filter = filter_of_names(alloc)?;
    cost_for_names(rt, alloc, &filter)
}

#[test]
fn cost_of_many_exact_names(rt: HostRuntime) -> Result<(), Fail> {
    let spent = cost_by_names(&rt, rt.alloc())?;
    eprintln!(rt; "judge among {NAMES} exact names: {spent} ns a call")?;
    Ok(())
}

/// The table of this text, and the milliseconds in which it was read.
fn timed_table(rt: &impl Clock, alloc: Global, text: &str) -> Result<(Modules, u128), Fail> {
    let start = Instant::now(rt)?;
    let table = Modules::parse(alloc, text)?;
    let spent = start.elapsed(rt)?.as_millis();
    Ok((table, spent))
}

/// The table has its last line.
fn assert_last_line(rt: &impl Abort, alloc: Global, table: &Modules) -> Result<(), AllocError> {
    let package = units_of(alloc, "com.example.part49999")?;
    let module = units_of(alloc, "shop49999")?;
    holds!(rt; table.get(&package) == Some(module.as_slice()));
    Ok(())
}

#[test]
fn cost_of_a_long_table(rt: HostRuntime) -> Result<(), Fail> {
    let text = many_lines(rt.alloc())?;
    let (table, spent) = timed_table(&rt, rt.alloc(), &text)?;
    assert_last_line(&rt, rt.alloc(), &table)?;
    eprintln!(rt; "a table of {LINES} lines: read in {spent} ms")?;
    Ok(())
}
