//! Measures the libraries: `rt run -- texts 200`, `tables 1000`, `filters 100` or `streams FILE`, and with `try FILE`
//! does a little of each and prints nothing, as the gate runs it.
#![tactic(auto)]

mod filters;
mod page;
mod streams;
mod tables;
mod texts;
mod ways;

use anyhow::{Result, bail};
use std::env;
use std::fs::read;

fn main(rt: HostRuntime) -> Result<()> {
    let mut words = env::args(&rt)?.skip(1);
    let (Some(what), Some(amount)) = (words.next(), words.next()) else {
        bail!("what is to be measured, and how much of it, or which file?");
    };
    let way = words.next();
    measure(&rt, what.as_str(), amount.as_str(), way.as_ref())
}

/// Measures what this word names.
fn measure(rt: &HostRuntime, what: &str, amount: &str, way: Option<&String>) -> Result<()> {
    match what {
        "texts" => texts::scan_kinds(rt, amount.parse::<u32>()?, true),
        "tables" => tables::print_costs(rt, u32::from(amount.parse::<u16>()?) * 1000),
        "filters" => filters::print_costs(rt, u32::from(amount.parse::<u16>()?) * 1000),
        "streams" => measure_stream(rt, amount, way),
        "try" => try_each(rt, amount),
        _ => bail!("{what} is none of texts, tables, filters, streams and try"),
    }
}

/// Reads a file in each way, or once in the way of this name.
fn measure_stream(rt: &HostRuntime, file: &str, way: Option<&String>) -> Result<()> {
    let stream = read(rt, file)?;
    match way {
        Some(way) => streams::read_once(rt.alloc(), &stream, way.as_str()),
        None => streams::print_speeds(rt, &stream),
    }
}

/// Does a little of each, and prints nothing.
fn try_each(rt: &HostRuntime, file: &str) -> Result<()> {
    texts::scan_kinds(rt, 1, false)?;
    tables::make_calls(rt, rt.alloc(), 1000)?;
    filters::try_all(rt, rt.alloc())?;
    let stream = read(rt, file)?;
    streams::read_once(rt.alloc(), &stream, "text")
}
