//! Which lists `Contents::new` takes, and what it answers of the others. The lists are worked examples of
//! the format; deep ones are nested arrays.

use crate::tests::asserted::holds;
use crate::tests::trees::{
    Build, abc_null_ref, array_list, enum_constant, external_over_serial, int_array, linked_pair,
    plain, proxy, reset_epochs, superclass_first,
};
use jser_value::{Body, ClassPlace, Content, Contents, Desc, Value, ValueCause};
use std::alloc::{AllocError, AllocGlobal, Global};
use std::process::Abort;
use std::test::Fail;

/// An array of this class that holds the value. Gives the value back where there is no memory.
fn in_array(alloc: Global, descr: ClassPlace, value: Value) -> Result<Value, Value> {
    let mut values = Vec::new(alloc);
    match values.push(value) {
        Ok(()) => Ok(Value::Array {
            descr,
            body: Body::Values(values),
        }),
        Err(failed) => Err(failed.value),
    }
}

/// So many arrays of the class `[LA;`, one inside the other, the innermost round this value.
pub fn nest(alloc: Global, arrays: u32, innermost: Value) -> Build {
    let mut value = innermost;
    for _ in 1..arrays {
        match in_array(alloc, ClassPlace::Back(0), value) {
            Ok(array) => value = array,
            Err(inner) => {
                take_apart(inner, arrays);
                return Err(AllocError);
            }
        }
    }
    let descr = plain(alloc, "[LA;", 1, 2, Vec::new(alloc), ClassPlace::Null)?;
    match in_array(alloc, descr, value) {
        Ok(array) => Ok(vec![in alloc; Content::Value(array)]?),
        Err(inner) => {
            take_apart(inner, arrays);
            Err(AllocError)
        }
    }
}

/// The last of an array's values.
fn last_of(body: Body) -> Option<Value> {
    match body {
        Body::Prims(_prims) => None,
        Body::Values(mut values) => values.pop(),
    }
}

/// What stands in an array.
fn inside(value: Value) -> Option<Value> {
    match value {
        Value::Array {
            descr: _descr,
            body,
        } => last_of(body),
        _other => None,
    }
}

/// Drops nested arrays from the outermost on, with no recursion.
fn take_apart(value: Value, arrays: u32) {
    let mut value = value;
    for _ in 0..arrays {
        match inside(value) {
            Some(inner) => value = inner,
            None => return,
        }
    }
}

/// Drops a list of nested arrays, with no recursion.
fn take_list_apart(mut list: Vec<Content>, arrays: u32) {
    if let Some(Content::Value(value)) = list.pop() {
        take_apart(value, arrays);
    }
}

/// That the answer is right, or out of memory, and that it has the same list.
fn assert_answer(
    rt: &impl Abort,
    alloc: Global,
    list: Vec<Content>,
    same: &[Content],
    cause: Option<ValueCause>,
) {
    match Contents::new(alloc, list) {
        Ok(contents) => {
            holds(rt, cause.is_none(), "accepted where no cause is wanted");
            holds(rt, contents.list() == same, "the contents are the list");
        }
        Err(fault) => {
            holds(rt, fault.list.as_slice() == same, "the list comes back");
            let right = cause == Some(fault.cause) || fault.cause == ValueCause::OutOfMemory;
            let found = fault.cause;
            holds(
                rt,
                right,
                format_args!("{cause:?} or out of memory: {found:?}"),
            );
        }
    }
}

/// The list of the row of this name is accepted.
fn assert_accepted(
    rt: &(impl Abort + AllocGlobal),
    name: &str,
    list: Build,
) -> Result<(), AllocError> {
    let list = list?;
    holds(rt, Contents::new(rt.alloc(), list).is_ok(), name);
    Ok(())
}

#[test]
fn worked_streams_are_accepted(rt: HostRuntime) -> Result<(), Fail> {
    let alloc = rt.alloc();
    assert_accepted(&rt, "abc-null-ref", abc_null_ref(alloc))?;
    assert_accepted(&rt, "linked-pair", linked_pair(alloc))?;
    assert_accepted(&rt, "int-array", int_array(alloc))?;
    assert_accepted(&rt, "enum-constant", enum_constant(alloc))?;
    assert_accepted(&rt, "proxy", proxy(alloc))?;
    assert_accepted(&rt, "reset-epochs", reset_epochs(alloc))?;
    assert_accepted(&rt, "external-over-serial", external_over_serial(alloc))?;
    assert_accepted(&rt, "array-list", array_list(alloc))?;
    assert_accepted(&rt, "superclass-first", superclass_first(alloc))?;
    Ok(())
}

#[test]
fn tree_empty(rt: HostRuntime) {
    let alloc = rt.alloc();
    holds!(rt; Contents::new(alloc, Vec::new(alloc)).is_ok());
}

#[test]
fn tree_nest_999(rt: HostRuntime) -> Result<(), Fail> {
    let list = nest(rt.alloc(), 999, Value::Null);
    assert_accepted(&rt, "tree-nest-999", list)?;
    Ok(())
}

/// The list is refused for this cause and handed back, or memory runs out.
fn assert_refused(
    rt: &(impl Abort + AllocGlobal),
    list: Build,
    same: Build,
    cause: ValueCause,
) -> Result<(), AllocError> {
    let same = same?;
    assert_answer(rt, rt.alloc(), list?, &same, Some(cause));
    Ok(())
}

#[test]
fn tree_nest_1000(rt: HostRuntime) -> Result<(), Fail> {
    let list = nest(rt.alloc(), 1000, Value::Null);
    let same = nest(rt.alloc(), 1000, Value::Null);
    assert_refused(&rt, list, same, ValueCause::TooDeep)?;
    Ok(())
}

#[test]
fn tree_deep_and_wrong(rt: HostRuntime) -> Result<(), Fail> {
    let list = nest(rt.alloc(), 1000, Value::Back(5000));
    let same = nest(rt.alloc(), 1000, Value::Back(5000));
    assert_refused(&rt, list, same, ValueCause::TooDeep)?;
    Ok(())
}

/// A reference to a handle that is not assigned.
fn reference_alone(alloc: Global) -> Build {
    Ok(vec![in alloc; Content::Value(Value::Back(0))]?)
}

#[test]
fn tree_not_right_reference(rt: HostRuntime) -> Result<(), Fail> {
    let list = reference_alone(rt.alloc());
    let same = reference_alone(rt.alloc());
    assert_refused(&rt, list, same, ValueCause::NotRight)?;
    Ok(())
}

/// A descriptor with a reset in its annotation.
fn reset_inside(alloc: Global) -> Build {
    let desc = Desc::Plain {
        name: vec![in alloc; 0x41u16]?,
        suid: 1,
        flags: 2,
        fields: Vec::new(alloc),
        notes: vec![in alloc; Content::Reset]?,
        parent: ClassPlace::Null,
    };
    Ok(vec![in alloc; Content::Value(Value::Desc(Box::new(alloc, desc)?))]?)
}

#[test]
fn tree_not_right_reset(rt: HostRuntime) -> Result<(), Fail> {
    let list = reset_inside(rt.alloc());
    let same = reset_inside(rt.alloc());
    assert_refused(&rt, list, same, ValueCause::NotRight)?;
    Ok(())
}

/// The recursion stops at the depth that is allowed, so little stack is used.
#[test]
fn a_million_arrays_are_too_deep(rt: HostRuntime) -> Result<(), Fail> {
    let alloc = rt.alloc();
    let arrays = 1_000_000;
    match Contents::new(alloc, nest(alloc, arrays, Value::Null)?) {
        Ok(_contents) => holds!(rt; false, "a million arrays are refused"),
        Err(fault) => {
            same!(rt; fault.cause, ValueCause::TooDeep);
            take_list_apart(fault.list, arrays);
        }
    }
    Ok(())
}

/// To be run with each allocation refused in turn: where the list could be built, the answer is right or
/// out of memory, and it has the list.
#[test]
fn a_refused_growth_hands_the_list_back(rt: HostRuntime) {
    let alloc = rt.alloc();
    let Ok(same) = linked_pair(alloc) else {
        return;
    };
    let Ok(list) = linked_pair(alloc) else {
        return;
    };
    assert_answer(&rt, alloc, list, &same, None);
}
