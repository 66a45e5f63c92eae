//! Each caller on a worked case.
use crate::admission::{admits, judge_for_each_table, judge_for_good, judge_text};
use crate::settings::{SettingsFault, depth_limit, forget_modules, is_in_module, load};
use crate::texts::{faulty_piece, filter_line, modules_line, sound_lines};
use jser_filter::{Filter, FilterCause, FilterFault, Modules, ModulesCause, ModulesFault, Verdict};
use jser_prim::units_of;
use std::alloc::{AllocError, Global};
use std::process::Abort;
use std::test::Fail;

/// Names, and whether the filter of the test below admits them.
const ADMITTED: [(&str, bool); 6] = [
    ("java.util.ArrayList", true),
    ("com.x.Y", false),
    ("other.Z", true),
    ("[Lcom.x.Y;", false),
    ("[I", true),
    ("[V", false),
];

/// The filter admits the name, or not.
fn assert_admits(
    rt: &impl Abort,
    alloc: Global,
    filter: &Filter,
    name: &str,
    want: bool,
) -> Result<(), AllocError> {
    let units = units_of(alloc, name)?;
    same!(rt; admits(filter, &units), want, name);
    Ok(())
}

/// The filter admits the names that it is to admit, and no others.
fn compare_admitted(rt: &impl Abort, alloc: Global, filter: &Filter) -> Result<(), Fail> {
    for (name, want) in &ADMITTED {
        assert_admits(rt, alloc, filter, name, *want)?;
    }
    Ok(())
}

#[test]
fn admitted_names(rt: HostRuntime) -> Result<(), Fail> {
    let filter = Filter::parse(rt.alloc(), "java.util.*;!com.**")?;
    compare_admitted(&rt, rt.alloc(), &filter)
}

#[test]
fn verdicts_of_texts(rt: HostRuntime) -> Result<(), Fail> {
    let alloc = rt.alloc();
    let name = [0x61, 0x2E, 0x42];
    same!(rt;
        judge_text(alloc, "x;!a.*", &name),
        Ok(Verdict::Rejected(1))
    );
    same!(rt;
        judge_for_good(alloc, "a.B;*", &name),
        Ok(Verdict::Allowed(0))
    );
    same!(rt;
        judge_for_each_table(alloc, "x", &name),
        Ok(Verdict::Undecided)
    );
    Ok(())
}

/// Why the settings of these two texts are not taken, if they are not.
fn settings_fault(alloc: Global, text: &str, table: &str) -> Option<SettingsFault> {
    load(alloc, text, table).err()
}

#[test]
fn faulty_settings(rt: HostRuntime) {
    let alloc = rt.alloc();
    let fault = FilterFault {
        pattern: 1,
        cause: FilterCause::NameMissing,
    };
    same!(rt; settings_fault(alloc, "a;!", ""), Some(SettingsFault::Filter(fault)));
    let fault = ModulesFault {
        line: 0,
        cause: ModulesCause::BadLine,
    };
    same!(rt; settings_fault(alloc, "a", "b"), Some(SettingsFault::Modules(fault)));
}

/// The name of a class of the package that the settings below put into a module.
const IN_SHOP: [u16; 3] = [0x61, 0x2E, 0x42];

/// The limit of the settings below, and that they do not admit the classes of the module.
fn compare_loaded(rt: &impl Abort, filter: &Filter) {
    same!(rt; depth_limit(filter, 1000), 20);
    same!(rt; depth_limit(filter, 10), 10);
    holds!(rt; !admits(filter, &IN_SHOP));
}

#[test]
fn loaded_settings(rt: HostRuntime) {
    let Ok(filter) = load(rt.alloc(), "!shop/a.*;maxdepth=20", "a=shop") else {
        return;
    };
    compare_loaded(&rt, &filter);
    compare_without_modules(&rt, rt.alloc(), filter);
}

/// The filter admits the classes of the module once the table is forgotten.
fn compare_without_modules(rt: &impl Abort, alloc: Global, filter: Filter) {
    let bare = forget_modules(alloc, filter);
    holds!(rt; admits(&bare, &IN_SHOP));
}

/// The package of this one letter is in the module, or not.
fn assert_in_module(
    rt: &impl Abort,
    alloc: Global,
    table: &Modules,
    package: u16,
    module: &str,
    want: bool,
) -> Result<(), AllocError> {
    let units = units_of(alloc, module)?;
    same!(rt; is_in_module(table, &[package], &units), want, module);
    Ok(())
}

/// Packages of one letter, and whether the table of the test below puts them into a module.
const IN_MODULES: [(u16, &str, bool); 3] = [
    (0x61, "shop", true),
    (0x61, "till", false),
    (0x63, "till", false),
];

/// The table puts these packages into these modules, or not.
fn compare_modules(rt: &impl Abort, alloc: Global, table: &Modules) -> Result<(), Fail> {
    for (package, module, want) in &IN_MODULES {
        assert_in_module(rt, alloc, table, *package, module, *want)?;
    }
    Ok(())
}

#[test]
fn modules_of_packages(rt: HostRuntime) -> Result<(), Fail> {
    let table = Modules::parse(rt.alloc(), "a=shop\nb=till")?;
    compare_modules(&rt, rt.alloc(), &table)
}

#[test]
fn faulty_filter(rt: HostRuntime) -> Result<(), Fail> {
    let alloc = rt.alloc();
    let Some(fault) = faulty_piece(alloc, "a;maxdepth=x") else {
        return Ok(());
    };
    let line = filter_line(alloc, fault)?;
    same!(rt; line.as_str(), "filter pattern 1: BadLimit");
    holds!(rt; faulty_piece(alloc, "a;b").is_none());
    Ok(())
}

#[test]
fn faulty_table(rt: HostRuntime) -> Result<(), Fail> {
    let alloc = rt.alloc();
    same!(rt; sound_lines(alloc, "a=b\nc=d\na=e"), Some(2));
    let fault = ModulesFault {
        line: 2,
        cause: ModulesCause::PackageTwice,
    };
    let line = modules_line(alloc, fault)?;
    same!(rt; line.as_str(), "modules line 2: PackageTwice");
    Ok(())
}
