//! The example of the README of `jser_filter`.

// README: jser_filter
use jser_filter::{Filter, Modules, Verdict};
use jser_prim::units_of;
use jser_table::{Element, element_of};

fn allows(filter: &Filter, name: &[u16]) -> bool {
    match element_of(name) {
        Element::Malformed => false,
        Element::Name(_) | Element::Primitive => {
            !matches!(filter.judge(name), Verdict::Rejected(_))
        }
    }
}
// end

use std::alloc::{AllocError, Global};
use std::process::Abort;
use std::test::Fail;

#[test]
fn a_filter_with_modules(rt: HostRuntime) -> Result<(), Fail> {
    let alloc = rt.alloc();
    // README: jser_filter
    let table = Modules::parse(alloc, "java.util=java.base")?;
    let filter = Filter::parse(alloc, "java.util.*;!*;maxdepth=20")?.with_modules(table);
    // end
    Ok(judges_by_text(&rt, alloc, &filter)?)
}

/// What the filter of the example says of a name in its package, and its limit.
fn judges_by_text(rt: &impl Abort, alloc: Global, filter: &Filter) -> Result<(), AllocError> {
    // README: jser_filter
    assert!(rt; allows(filter, &units_of(alloc, "java.util.ArrayList")?));
    assert_eq!(rt; filter.limits().depth, Some(20));
    // end
    judges_in_module(rt, alloc, filter)
}

/// What the filter of the example says of a name outside of the module, and of an array of no class.
fn judges_in_module(rt: &impl Abort, alloc: Global, filter: &Filter) -> Result<(), AllocError> {
    let runtime = units_of(alloc, "java.lang.Runtime")?;
    assert!(rt; !allows(filter, &runtime));
    let ints = units_of(alloc, "[[I")?;
    assert!(rt; allows(filter, &ints));
    Ok(())
}
