//! Worked examples of filter texts, limits and tables of modules, by `jser_filter` alone.
use jser_filter::{
    Filter, FilterCause, FilterFault, Limits, Modules, ModulesCause, ModulesFault, Verdict,
};
use jser_prim::units_of;
use jser_table::{Element, element_of};
use std::alloc::{AllocError, AllocGlobal, Global};
use std::process::Abort;
use std::test::Fail;

mod costs;
mod memory;
mod verdicts;

/// What the filter says of a name, or `None` for a malformed one.
fn judge(filter: &Filter, name: &[u16]) -> Option<Verdict> {
    match element_of(name) {
        Element::Malformed => None,
        Element::Name(_) | Element::Primitive => Some(filter.judge(name)),
    }
}

/// What a filter's text says of a name, or `None` for a malformed one.
fn judge_by(alloc: Global, text: &str, name: &[u16]) -> Result<Option<Verdict>, FilterFault> {
    let filter = Filter::parse(alloc, text)?;
    Ok(judge(&filter, name))
}

/// A filter's text, a name, and what that text says of it.
type Row = (&'static str, &'static str, Verdict);

/// Compares what a text says of a name, which is not malformed.
fn compare_row(
    rt: &impl Abort,
    alloc: Global,
    text: &str,
    name: &str,
    verdict: Verdict,
) -> Result<(), AllocError> {
    let units = units_of(alloc, name)?;
    same!(rt; judge_by(alloc, text, &units), Ok(Some(verdict)), format_args!("{text} on {name}"));
    Ok(())
}

/// Compares what texts say of names.
fn compare(rt: &(impl Abort + AllocGlobal), rows: &[Row]) -> Result<(), Fail> {
    for (text, name, verdict) in rows {
        compare_row(rt, rt.alloc(), text, name, *verdict)?;
    }
    Ok(())
}

/// The limits of a text.
fn limits_of(alloc: Global, text: &str) -> Result<Limits, FilterFault> {
    let filter = Filter::parse(alloc, text)?;
    Ok(filter.limits())
}

/// The fault of a text, if it has one.
fn fault_of(alloc: Global, text: &str) -> Option<FilterFault> {
    Filter::parse(alloc, text).err()
}

const NO_LIMITS: Limits = Limits {
    depth: None,
    refs: None,
    bytes: None,
    array: None,
};

/// A text of two patterns and two limits.
const TEXT: &str = "a.*;!a.**;maxrefs=3;maxrefs=9";

/// What that text and the empty one say of names.
const TEXTS: [Row; 4] = [
    (TEXT, "a.B", Verdict::Allowed(0)),
    (TEXT, "a.b.C", Verdict::Rejected(1)),
    (TEXT, "b.C", Verdict::Undecided),
    ("", "a", Verdict::Undecided),
];

#[test]
fn filter_texts(rt: HostRuntime) -> Result<(), Fail> {
    compare(&rt, &TEXTS)?;
    same!(rt; fault_of(rt.alloc(), "m/x"), None);
    Ok(())
}

/// Faulty texts of filters, each with the number of its first faulty piece and what is wrong with that.
const FILTER_FAULTS: [(&str, usize, FilterCause); 26] = [
    ("maxdepth=-1", 0, FilterCause::BadLimit),
    ("maxdepth= 5", 0, FilterCause::BadLimit),
    (".*", 0, FilterCause::PackageMissing),
    ("!", 0, FilterCause::NameMissing),
    ("m/", 0, FilterCause::NameMissing),
    ("/x", 0, FilterCause::ModuleMissing),
    ("max=1", 0, FilterCause::UnknownLimit),
    ("a;;max=1", 2, FilterCause::UnknownLimit),
    ("maxdepth=", 0, FilterCause::BadLimit),
    ("maxdepth=9223372036854775808", 0, FilterCause::BadLimit),
    ("maxrefs=1 ", 0, FilterCause::BadLimit),
    ("!maxdepth=3", 0, FilterCause::UnknownLimit),
    ("a=b=c", 0, FilterCause::UnknownLimit),
    ("!.**", 0, FilterCause::PackageMissing),
    ("m/.*", 0, FilterCause::PackageMissing),
    ("/", 0, FilterCause::ModuleMissing),
    ("!/x", 0, FilterCause::ModuleMissing),
    ("!m/", 0, FilterCause::NameMissing),
    ("maxbytes=+", 0, FilterCause::BadLimit),
    ("maxbytes=-", 0, FilterCause::BadLimit),
    ("maxarray=1x", 0, FilterCause::BadLimit),
    ("maxarray=18446744073709551616", 0, FilterCause::BadLimit),
    ("Maxdepth=1", 0, FilterCause::UnknownLimit),
    ("=", 0, FilterCause::UnknownLimit),
    ("a;!;max=1", 1, FilterCause::NameMissing),
    (";;;/", 3, FilterCause::ModuleMissing),
];

#[test]
fn filter_faults(rt: HostRuntime) {
    for (text, pattern, cause) in &FILTER_FAULTS {
        let fault = FilterFault {
            pattern: *pattern,
            cause: *cause,
        };
        same!(rt; fault_of(rt.alloc(), text), Some(fault), text);
    }
}

/// The limits of texts.
const LIMITS: [(&str, Limits); 3] = [
    ("", NO_LIMITS),
    (
        "a.*;!a.**;maxrefs=3;maxrefs=9",
        Limits {
            depth: None,
            refs: Some(9),
            bytes: None,
            array: None,
        },
    ),
    (
        "maxbytes=1;maxarray=2;x;maxdepth=3;maxrefs=4",
        Limits {
            depth: Some(3),
            refs: Some(4),
            bytes: Some(1),
            array: Some(2),
        },
    ),
];

#[test]
fn filter_limits(rt: HostRuntime) -> Result<(), Fail> {
    for (text, limits) in &LIMITS {
        same!(rt; limits_of(rt.alloc(), text)?, *limits, text);
    }
    Ok(())
}

/// Texts with a limit of depth and no other.
const DEPTHS: [(&str, u64); 7] = [
    ("maxdepth=-0", 0),
    ("maxdepth=-000", 0),
    ("maxdepth=+0", 0),
    ("maxdepth=9223372036854775807", 9_223_372_036_854_775_807),
    ("maxdepth=+3", 3),
    ("maxdepth=0000000000000000000000012", 12),
    ("maxdepth=5;maxdepth=4", 4),
];

#[test]
fn filter_good_limits(rt: HostRuntime) -> Result<(), Fail> {
    for (text, depth) in &DEPTHS {
        let limits = Limits {
            depth: Some(*depth),
            ..NO_LIMITS
        };
        same!(rt; limits_of(rt.alloc(), text)?, limits, text);
    }
    Ok(())
}

/// The fault of a table of modules, if it has one.
fn modules_fault_of(alloc: Global, text: &str) -> Option<ModulesFault> {
    Modules::parse(alloc, text).err()
}

/// Faulty tables of modules, each with the number of its first faulty line and what is wrong with that.
const MODULES_FAULTS: [(&str, usize, ModulesCause); 8] = [
    ("a", 0, ModulesCause::BadLine),
    ("=b", 0, ModulesCause::BadLine),
    ("a=b=c", 0, ModulesCause::BadLine),
    ("a=", 0, ModulesCause::BadLine),
    ("a=b\n\na=c", 2, ModulesCause::PackageTwice),
    ("a=b\na=b", 1, ModulesCause::PackageTwice),
    ("a=b\na=", 1, ModulesCause::BadLine),
    ("\n\n\n=", 3, ModulesCause::BadLine),
];

#[test]
fn modules_faults(rt: HostRuntime) {
    for (text, line, cause) in &MODULES_FAULTS {
        let fault = ModulesFault {
            line: *line,
            cause: *cause,
        };
        same!(rt; modules_fault_of(rt.alloc(), text), Some(fault), text);
    }
}

/// A package has this module in a table, or none.
fn compare_module(
    rt: &impl Abort,
    alloc: Global,
    table: &Modules,
    package: &str,
    module: Option<&str>,
) -> Result<(), AllocError> {
    let units_of_package = units_of(alloc, package)?;
    let found = table.get(&units_of_package);
    match module {
        Some(module) => compare_found(rt, alloc, found, package, module)?,
        None => same!(rt; found, None, package),
    }
    Ok(())
}

/// The module that was found for a package is this one.
fn compare_found(
    rt: &impl Abort,
    alloc: Global,
    found: Option<&[u16]>,
    package: &str,
    module: &str,
) -> Result<(), AllocError> {
    let wanted = units_of(alloc, module)?;
    same!(rt; found, Some(wanted.as_slice()), package);
    Ok(())
}

/// A table of modules with an empty line, and with spaces and an end of line that belong to names.
const TWO_LINES: &str = "java.util=java.base\n\n app =shop\r";

/// Tables of modules, each with a package and its module there.
const MODULES: [(&str, &str, Option<&str>); 4] = [
    ("", "java.util", None),
    (TWO_LINES, "java.util", Some("java.base")),
    (TWO_LINES, "app", None),
    (TWO_LINES, " app ", Some("shop\r")),
];

/// A package has this module in the table of a text, or none.
fn compare_table(
    rt: &impl Abort,
    alloc: Global,
    text: &str,
    package: &str,
    module: Option<&str>,
) -> Result<(), Fail> {
    let table = Modules::parse(alloc, text)?;
    compare_module(rt, alloc, &table, package, module)?;
    Ok(())
}

/// Each row of the tables above.
fn compare_tables(rt: &impl Abort, alloc: Global) -> Result<(), Fail> {
    for (text, package, module) in &MODULES {
        compare_table(rt, alloc, text, package, *module)?;
    }
    Ok(())
}

#[test]
fn modules_tables(rt: HostRuntime) -> Result<(), Fail> {
    let none = Modules::none(rt.alloc());
    compare_module(&rt, rt.alloc(), &none, "java.util", None)?;
    compare_tables(&rt, rt.alloc())
}

/// What texts say of names, with the table of modules below.
const WITH_MODULES: [Row; 8] = [
    (
        "java.base/java.util.*;!*",
        "java.util.ArrayList",
        Verdict::Allowed(0),
    ),
    (
        "java.base/java.util.*;!*",
        "java.lang.String",
        Verdict::Rejected(1),
    ),
    ("java.base/*;!*", "E", Verdict::Rejected(1)),
    (
        "!java.base/*;*",
        "java.util.ArrayList",
        Verdict::Rejected(0),
    ),
    (
        "!java.base/*;*",
        "java.util.concurrent.Phaser",
        Verdict::Allowed(1),
    ),
    ("shop/app.Cart", "app.Cart", Verdict::Allowed(0)),
    ("shop/Cart", "app.Cart", Verdict::Undecided),
    (
        "java.base/java.util.*",
        "[Ljava.util.List;",
        Verdict::Allowed(0),
    ),
];

/// The filter of a text, with the table of modules of the rows above.
fn filter_with_modules(alloc: Global, text: &str) -> Result<Filter, Fail> {
    let filter = Filter::parse(alloc, text)?;
    let table = Modules::parse(alloc, "java.util=java.base\napp=shop")?;
    Ok(filter.with_modules(table))
}

/// What the text says of a name with the table, or `None` for a malformed one.
fn judge_with_modules(alloc: Global, text: &str, name: &[u16]) -> Result<Option<Verdict>, Fail> {
    let filter = filter_with_modules(alloc, text)?;
    Ok(judge(&filter, name))
}

/// That the text does not allow the name without the table.
fn compare_without_modules(
    rt: &impl Abort,
    alloc: Global,
    text: &str,
    name: &[u16],
) -> Result<(), Fail> {
    let verdict = judge_by(alloc, text, name)?;
    holds!(rt; verdict != Some(Verdict::Allowed(0)), text);
    Ok(())
}

/// What the text says of the name with the table.
fn compare_with_modules(
    rt: &impl Abort,
    alloc: Global,
    text: &str,
    name: &[u16],
    verdict: Verdict,
) -> Result<(), Fail> {
    let found = judge_with_modules(alloc, text, name)?;
    same!(rt; found, Some(verdict), text);
    Ok(())
}

/// What the text says of the name with the table, and that it does not allow it without.
fn compare_both(
    rt: &impl Abort,
    alloc: Global,
    text: &str,
    name: &[u16],
    verdict: Verdict,
) -> Result<(), Fail> {
    compare_without_modules(rt, alloc, text, name)?;
    compare_with_modules(rt, alloc, text, name, verdict)
}

#[test]
fn filters_with_modules(rt: HostRuntime) -> Result<(), Fail> {
    for (text, name, verdict) in &WITH_MODULES {
        let name = units_of(rt.alloc(), name)?;
        compare_both(&rt, rt.alloc(), text, &name, *verdict)?;
    }
    Ok(())
}
