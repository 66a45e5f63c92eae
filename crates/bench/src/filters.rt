//! How long a filter takes to judge a name that no pattern matches: `rt run -- filters 100` judges each name so many
//! thousand times by 1, 10, 100, 1,000 and 10,000 patterns of each form, and prints nanoseconds.

ghost use Rattle.std.specs.Prelude.{◌≢◌};
ghost use Rattle.jser_table.specs.Names.{element_of, malformed_element};

use anyhow::{Error, Result, bail};
use jser_filter::{Filter, Modules, Verdict};
use jser_prim::units_of;
use jser_table::{Element, element_of};
use std::alloc::{AllocError, Global};
use std::rt::Clock;
use std::time::Instant;

/// A form of pattern: what stands before the number of a pattern, and what after it.
#[derive(Clone, Copy)]
struct Form {
    name: &'static str,
    front: &'static str,
    back: &'static str,
}

static FORMS: [Form; 8] = [
    Form {
        name: "P.X",
        front: "org.sample.shop.K",
        back: "",
    },
    Form {
        name: "P.*",
        front: "org.sample.shop.k",
        back: ".*",
    },
    Form {
        name: "P.**",
        front: "org.sample.shop.k",
        back: ".**",
    },
    Form {
        name: "X*",
        front: "org.sample.shop.K",
        back: "*",
    },
    Form {
        name: "m/P.X",
        front: "shop/org.sample.shop.K",
        back: "",
    },
    Form {
        name: "m/P.*",
        front: "shop/org.sample.shop.k",
        back: ".*",
    },
    Form {
        name: "m/X*",
        front: "shop/org.sample.shop.K",
        back: "*",
    },
    Form {
        name: "M/X*",
        front: "m",
        back: "/org.sample.shop.K*",
    },
];

/// How many patterns a filter has.
static COUNTS: [u32; 5] = [1, 10, 100, 1000, 10_000];

/// Names of 1, 20 and 60 units; the longer ones begin as the patterns do.
const NAMES: [&str; 3] = [
    "a",
    "org.sample.shop.Zebr",
    "org.sample.shop.ZebraCrossingsInTheCityCentreAndBeyond",
];

/// The packages of the names have this module.
const MODULES: &str = "org.sample.shop=shop";

/// Judges each name once, by 1 and by 10 patterns of each form.
pub fn try_all(rt: &impl Clock, alloc: Global) -> Result<()> {
    for form in &FORMS {
        measure(rt, alloc, form, 1, 1)?;
        measure(rt, alloc, form, 10, 1)?;
    }
    Ok(())
}

/// Judges each name so many times by patterns of each form, and prints what it takes.
pub fn print_costs(rt: &HostRuntime, calls: u32) -> Result<()> {
    for form in &FORMS {
        print_form(rt, form, calls)?;
    }
    Ok(())
}

/// Judges each name so many times by patterns of this form, and prints what it takes.
fn print_form(rt: &HostRuntime, form: &Form, calls: u32) -> Result<()> {
    for count in &COUNTS {
        let Costs {
            short,
            middle,
            long,
        } = measure(rt, rt.alloc(), form, *count, calls)?;
        let name = form.name;
        println!(rt; "{count} of {name}: {short}, {middle}, {long} ns")?;
    }
    Ok(())
}

/// Nanoseconds that it takes to judge each of the names.
#[derive(Clone, Copy)]
struct Costs {
    short: u64,
    middle: u64,
    long: u64,
}

/// What it takes to judge each of the names by so many patterns of this form.
fn measure(rt: &impl Clock, alloc: Global, form: &Form, count: u32, calls: u32) -> Result<Costs> {
    let filter = filter_with(alloc, form, count)?;
    measure_by(rt, alloc, &filter, calls)
}

/// What it takes to judge each of the names by this filter.
fn measure_by(rt: &impl Clock, alloc: Global, filter: &Filter, calls: u32) -> Result<Costs> {
    let [short, middle, long] = NAMES;
    Ok(Costs {
        short: cost(rt, alloc, filter, short, calls)?,
        middle: cost(rt, alloc, filter, middle, calls)?,
        long: cost(rt, alloc, filter, long, calls)?,
    })
}

/// A filter of so many patterns of this form, none of which matches a name of `NAMES`.
fn filter_with(alloc: Global, form: &Form, count: u32) -> Result<Filter> {
    let text = text_of(alloc, form, count)?;
    filter_of(alloc, text.as_str())
}

/// The filter of this text, with the table of modules.
fn filter_of(alloc: Global, text: &str) -> Result<Filter> {
    let Ok(modules) = Modules::parse(alloc, MODULES) else {
        return Err(Error::msg("the table of modules was refused"));
    };
    match Filter::parse(alloc, text) {
        Ok(filter) => Ok(filter.with_modules(modules)),
        Err(fault) => bail!("the filter was refused: {fault}"),
    }
}

/// The text of so many patterns of this form.
fn text_of(alloc: Global, form: &Form, count: u32) -> Result<String, AllocError> {
    let mut text = String::new(alloc);
    for number in 0..count {
        let Form { front, back, .. } = *form;
        let pattern = format!(in alloc; "{front}{number}{back};")?;
        text.push_str(pattern.as_str())?;
    }
    Ok(text)
}

/// How many nanoseconds it takes to judge the name.
fn cost(rt: &impl Clock, alloc: Global, filter: &Filter, name: &str, calls: u32) -> Result<u64> {
    let units = units_of(alloc, name)?;
    match element_of(&units) {
        Element::Malformed => Err(Error::msg("the name is malformed")),
        _ => time_judging(rt, filter, &units, calls),
    }
}

/// How many nanoseconds it takes to judge a name in units: those of so many calls, divided by their number.
fn time_judging(rt: &impl Clock, filter: &Filter, name: &[u16], calls: u32) -> Result<u64>
    requires { element_of name.now ≢ malformed_element }
{
    let start = Instant::now(rt)?;
    if !stays_undecided(filter, name, calls) {
        return Err(Error::msg("a pattern matched that should not"));
    }
    let nanos = u64::try_from(start.elapsed(rt)?.as_nanos())?;
    Ok(nanos / u64::from(calls).max(1))
}

/// Whether no pattern matches the name, which is judged so many times.
fn stays_undecided(filter: &Filter, name: &[u16], calls: u32) -> bool
    requires { element_of name.now ≢ malformed_element }
{
    for _ in 0..calls {
        if filter.judge(name) != Verdict::Undecided {
            return false;
        }
    }
    true
}
