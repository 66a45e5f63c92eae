//! The arguments that several commands take: those of the filter, the form of the input, and the file.
ghost use Rattle.std.specs.Prelude.{◌≡◌, IfOk, map, option_map, codes, string_bytes, false};
ghost use Rattle.clap.specs.Words.{app_of, rule_of, with_rule, first_of, rows_of, found_of};
ghost use Rattle.clap.specs.declared.Command.{out-Command};
ghost use Rattle.jser_line.specs.Args.{filter_rule, filter_file_rule, modules_rule, strict_rule, anywhere_rule, limit_rule, values_rule, hex_rule, base64_rule, base64url_rule, file_rule, with_filter_rules, with_strict_filter_rules, with_form_rules, text_in, texts_in, is_true, filters_in, filters_asked, forms_in};

use clap::{Arg, ArgAction, ArgMatches, Command};
use std::alloc::{AllocError, Global};

/// What says which class names are admitted.
#[derive(Debug, Drop)]
pub struct Filters {
    /// The filter's text, if one is given.
    pub text: Option<String>,
    /// The filter file, if one is named.
    pub file: Option<String>,
    /// The modules file, if one is named.
    pub modules: Option<String>,
}

/// Which forms of the input are asked for.
#[derive(Clone, Copy, PartialEq, Eq, Debug)]
pub struct Forms {
    /// Hexadecimal.
    pub hex: bool,
    /// Base64 of the standard alphabet.
    pub base64: bool,
    /// Base64 of the URL-safe alphabet.
    pub base64url: bool,
}

/// The command, with the arguments that say which class names are admitted.
pub(crate) fn with_filters<'a>(
    alloc: Global,
    command: Command<'a>,
) -> Result<Command<'a>, AllocError>
    requires local { (out-Command command).has_globals ≡ false }
    ensures app { IfOk result (λ filtered. app_of filtered ≡ with_filter_rules (app_of command.entry)) }
    ensures local { IfOk result (λ filtered. (out-Command filtered).has_globals ≡ false) }
{
    let with_text = command.arg(filter_arg(alloc))?;
    let with_file = with_text.arg(filter_file_arg(alloc))?;
    with_file.arg(modules_arg(alloc))
}

/// The command, with the arguments that say which class names are admitted, and whether one that no pattern matches is
/// refused.
pub(crate) fn with_strict_filters<'a>(
    alloc: Global,
    command: Command<'a>,
) -> Result<Command<'a>, AllocError>
    requires local { (out-Command command).has_globals ≡ false }
    ensures app { IfOk result (λ filtered. app_of filtered ≡ with_strict_filter_rules (app_of command.entry)) }
    ensures local { IfOk result (λ filtered. (out-Command filtered).has_globals ≡ false) }
{
    let filtered = with_filters(alloc, command)?;
    filtered.arg(strict_arg(alloc))
}

/// The command, with the arguments that say in which form the input comes.
pub(crate) fn with_forms<'a>(alloc: Global, command: Command<'a>) -> Result<Command<'a>, AllocError>
    requires local { (out-Command command).has_globals ≡ false }
    ensures app { IfOk result (λ formed. app_of formed ≡ with_form_rules (app_of command.entry)) }
    ensures local { IfOk result (λ formed. (out-Command formed).has_globals ≡ false) }
{
    let with_hex = command.arg(hex_arg(alloc))?;
    let with_base64 = with_hex.arg(base64_arg(alloc))?;
    with_base64.arg(base64url_arg(alloc))
}

/// The filter's text.
fn filter_arg<'a>(alloc: Global) -> Arg<'a>
    ensures rule { rule_of result ≡ filter_rule }
    ensures local { result.global ≡ false }
{
    Arg::new(alloc, "filter")
        .long("filter")
        .value_name("T")
        .help(
            "Class patterns and limits, separated by ';', as java.util.*;!*;maxdepth=20.\n\
             The first pattern that matches a class name decides. If T begins with '-',\n\
             write --filter=T",
        )
}

/// The filter file.
fn filter_file_arg<'a>(alloc: Global) -> Arg<'a>
    ensures rule { rule_of result ≡ filter_file_rule }
    ensures local { result.global ≡ false }
{
    Arg::new(alloc, "filter-file")
        .long("filter-file")
        .value_name("F")
        .help(
            "The filter file F in place of T: its lines, joined by ';'. An empty line\n\
             and one that begins with '#' are empty pieces. A byte order mark, '#' in a\n\
             piece, and a blank or an unseen character at an end of a piece are faults",
        )
}

/// The modules file.
fn modules_arg<'a>(alloc: Global) -> Arg<'a>
    ensures rule { rule_of result ≡ modules_rule }
    ensures local { result.global ≡ false }
{
    Arg::new(alloc, "modules")
        .long("modules")
        .value_name("M")
        .help(
            "The modules file M: lines package=module, for patterns of the form\n\
             module/pattern",
        )
}

/// Whether a name that no pattern matches is refused.
fn strict_arg<'a>(alloc: Global) -> Arg<'a>
    ensures rule { rule_of result ≡ strict_rule }
    ensures local { result.global ≡ false }
{
    Arg::new(alloc, "strict")
        .long("strict")
        .action(ArgAction::SetTrue)
        .help("Refuses a class that no pattern matches")
}

/// Whether the filter is asked about each class name that can be read at any place.
pub(crate) fn anywhere_arg<'a>(alloc: Global) -> Arg<'a>
    ensures rule { rule_of result ≡ anywhere_rule }
    ensures local { result.global ≡ false }
{
    Arg::new(alloc, "anywhere")
        .long("anywhere")
        .action(ArgAction::SetTrue)
        .help(
            "Also asks the filter about every class name that can be read at any place\n\
             of the bytes; list prints these names",
        )
}

/// Whether raw values are followed by what they mean.
pub(crate) fn values_arg<'a>(alloc: Global) -> Arg<'a>
    ensures rule { rule_of result ≡ values_rule }
    ensures local { result.global ≡ false }
{
    Arg::new(alloc, "values")
        .long("values")
        .action(ArgAction::SetTrue)
        .help(
            "Prints behind the bytes of a primitive value what they mean, in brackets: a\n\
             number in decimal, a char in quotes, true or false",
        )
}

/// How many bytes of text are printed at most.
pub(crate) fn limit_arg<'a>(alloc: Global) -> Arg<'a>
    ensures rule { rule_of result ≡ limit_rule }
    ensures local { result.global ≡ false }
{
    Arg::new(alloc, "limit").long("limit").value_name("N").help(
        "Bounds the text that is printed, not the stream: at most N bytes, in whole\n\
             lines; no bound by default. Where the text has more, the line 'cut at N\n\
             bytes' follows, and the status is 4",
    )
}

/// Whether the input is hexadecimal.
fn hex_arg<'a>(alloc: Global) -> Arg<'a>
    ensures rule { rule_of result ≡ hex_rule }
    ensures local { result.global ≡ false }
{
    Arg::new(alloc, "hex")
        .long("hex")
        .action(ArgAction::SetTrue)
        .help("The input is hexadecimal, with white space anywhere but in records")
}

/// Whether the input is base64 of the standard alphabet.
fn base64_arg<'a>(alloc: Global) -> Arg<'a>
    ensures rule { rule_of result ≡ base64_rule }
    ensures local { result.global ≡ false }
{
    Arg::new(alloc, "base64")
        .long("base64")
        .action(ArgAction::SetTrue)
        .help("The same in base64 of the standard alphabet (+ and /), padded or not")
}

/// Whether the input is base64 of the URL-safe alphabet.
fn base64url_arg<'a>(alloc: Global) -> Arg<'a>
    ensures rule { rule_of result ≡ base64url_rule }
    ensures local { result.global ≡ false }
{
    Arg::new(alloc, "base64url")
        .long("base64url")
        .action(ArgAction::SetTrue)
        .help("The same in base64 of the URL-safe alphabet (- and _), padded or not")
}

/// The file of the stream.
pub(crate) fn file_arg<'a>(alloc: Global) -> Arg<'a>
    ensures rule { rule_of result ≡ file_rule }
    ensures local { result.global ≡ false }
{
    Arg::new(alloc, "file")
        .required(true)
        .value_name("FILE")
        .help("The file; - is standard input")
}

/// What the matches say of the filter.
pub(crate) fn filters_of(alloc: Global, matches: &ArgMatches<'_>) -> Result<Filters, AllocError>
    ensures { IfOk result (λ filters. filters_asked filters ≡ filters_in (rows_of (found_of matches.now))) }
{
    let text = value_of(alloc, matches, "filter")?;
    let file = value_of(alloc, matches, "filter-file")?;
    let modules = value_of(alloc, matches, "modules")?;
    Ok(Filters {
        text,
        file,
        modules,
    })
}

/// What the matches say of the form.
pub(crate) fn forms_of(matches: &ArgMatches<'_>) -> Forms
    ensures { result ≡ forms_in (rows_of (found_of matches.now)) }
{
    Forms {
        hex: is_set(matches, "hex"),
        base64: is_set(matches, "base64"),
        base64url: is_set(matches, "base64url"),
    }
}

/// The first value of an argument, if it has one.
#[tactic(auto, using(crate::proofs::WordLemmas::first_text))]
pub(crate) fn value_of(
    alloc: Global,
    matches: &ArgMatches<'_>,
    id: &str,
) -> Result<Option<String>, AllocError>
    ensures { IfOk result (λ text. option_map string_bytes text ≡ first_of id.now (rows_of (found_of matches.now))) }
{
    match matches.get_str(id) {
        Some(text) => Ok(Some(String::from_str(alloc, text)?)),
        None => Ok(None),
    }
}

/// The first value of an argument, or the empty text.
#[tactic(auto, using(crate::proofs::WordLemmas::first_text))]
pub(crate) fn text_of(
    alloc: Global,
    matches: &ArgMatches<'_>,
    id: &str,
) -> Result<String, AllocError>
    ensures { IfOk result (λ text. string_bytes text ≡ text_in (rows_of (found_of matches.now)) id.now) }
{
    match matches.get_str(id) {
        Some(text) => String::from_str(alloc, text),
        None => Ok(String::new(alloc)),
    }
}

/// The values of an argument.
#[tactic(auto, using(crate::proofs::WordLemmas::no_texts))]
pub(crate) fn texts_of(
    alloc: Global,
    matches: &ArgMatches<'_>,
    id: &str,
) -> Result<Vec<String>, AllocError>
    ensures { IfOk result (λ texts. map string_bytes texts.items ≡ texts_in (rows_of (found_of matches.now)) id.now) }
{
    match matches.get_strs(id) {
        Some(values) => owned(alloc, values),
        None => Ok(Vec::new(alloc)),
    }
}

/// Texts of their own.
fn owned(alloc: Global, values: &[&str]) -> Result<Vec<String>, AllocError>
    ensures { IfOk result (λ texts. map string_bytes texts.items ≡ map (λ value. value.now) values.now) }
{
    let mut texts = Vec::new(alloc);
    'values: for value in values {
        texts.push(String::from_str(alloc, value)?)?;
    }
    Ok(texts)
}

/// Whether a flag is there.
#[tactic(auto, using(crate::proofs::WordLemmas::first_text))]
pub(crate) fn is_set(matches: &ArgMatches<'_>, id: &str) -> bool
    ensures { result ≡ is_true (first_of id.now (rows_of (found_of matches.now))) }
{
    match matches.get_str(id) {
        Some(text) => text == "true",
        None => false,
    }
}
