//! What the words of a command line ask for.

use crate::tests::asserted::{holds, same};
use jser_line::{Clash, Line, LineFault, line_of};
use std::alloc::{AllocGlobal, Global};
use std::process::Abort;

/// What these words ask for.
fn asked(rt: &(impl Abort + AllocGlobal), words: &[&str]) -> Line {
    match line_of(rt.alloc(), words) {
        Ok(Some(line)) => line,
        Ok(None) | Err(_) => rt.panic("this is a command, and there is memory"),
    }
}

#[test]
fn a_check_with_a_filter(rt: HostRuntime) {
    let words = ["serialcheck", "check", "--filter", "max=1", "-"];
    match asked(&rt, &words) {
        Line::Check {
            filters,
            strict,
            forms,
            anywhere,
            file,
        } => {
            same(&rt, &filters.text.as_deref(), &Some("max=1"), "the filter");
            holds(
                &rt,
                filters.file.is_none() && filters.modules.is_none(),
                "no files",
            );
            holds(
                &rt,
                !strict && !anywhere && !forms.hex && !forms.base64 && !forms.base64url,
                "no options",
            );
            same(&rt, &file.as_str(), &"-", "the file");
        }
        _ => rt.panic("these words ask for a check"),
    }
}

#[test]
fn a_show_with_values_and_a_limit(rt: HostRuntime) {
    match asked(
        &rt,
        &[
            "serialcheck",
            "show",
            "--hex",
            "--values",
            "--limit",
            "9",
            "a.ser",
        ],
    ) {
        Line::Show {
            forms,
            values,
            limit,
            file,
        } => {
            holds(&rt, forms.hex && !forms.base64, "hexadecimal");
            holds(&rt, values, "values");
            same(&rt, &limit.as_deref(), &Some("9"), "the limit");
            same(&rt, &file.as_str(), &"a.ser", "the file");
        }
        _ => rt.panic("these words ask for a text"),
    }
}

#[test]
fn clashes(rt: HostRuntime) {
    let rows: [(&[&str], Option<Clash>); 5] = [
        (
            &[
                "serialcheck",
                "check",
                "--filter",
                "a",
                "--filter-file",
                "f",
                "-",
            ],
            Some(Clash::Filters),
        ),
        (
            &["serialcheck", "list", "--hex", "--base64", "-"],
            Some(Clash::HexAndBase64),
        ),
        (
            &["serialcheck", "show", "--base64url", "--hex", "-"],
            Some(Clash::HexAndBase64Url),
        ),
        (
            &["serialcheck", "suggest", "--base64", "--base64url", "-"],
            Some(Clash::BothBase64),
        ),
        (&["serialcheck", "list", "--hex", "-"], None),
    ];
    for (words, wanted) in rows {
        same(&rt, &asked(&rt, words).clash(), &wanted, "the clash");
    }
}

#[test]
fn words_that_ask_for_nothing(rt: HostRuntime) {
    let rows: [&[&str]; 5] = [
        &["serialcheck", "chek", "-"],
        &["serialcheck", "check"],
        &["serialcheck", "check", "--lax", "-"],
        &["serialcheck", "check", "a", "b"],
        &["serialcheck", "--help"],
    ];
    for words in rows {
        match line_of(rt.alloc(), words) {
            Err(LineFault::Clap(_)) => {}
            _ => rt.panic("clap refuses these words"),
        }
    }
}
