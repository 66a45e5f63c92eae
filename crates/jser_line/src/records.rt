//! `serialcheck records [--filter T | --filter-file F] [--modules M] [--strict] [--hex | --base64 | --base64url | --frames | --sized]
//! [--zero] [--copy] [--field N] [--most N] [--anywhere] [--refused] [--json] [--progress] [--pass] FILE`
ghost use Rattle.std.specs.Prelude.{◌≡◌, IfOk, false};
ghost use Rattle.clap.specs.Words.{app_of, rule_of, rows_of, found_of};
ghost use Rattle.clap.specs.declared.Command.{out-Command};
ghost use Rattle.jser_line.specs.Args.{copy_rule, field_rule, frames_rule, most_rule, pass_rule, sized_rule, zero_rule};
ghost use Rattle.jser_line.specs.App.{records_app, records_in, line_asks, with_layout_rules, with_more_rules, with_shape_rules};

use crate::args::{
    Filters, Forms, file_arg, filters_of, forms_of, is_set, text_of, value_of, with_forms,
    with_strict_filters,
};
use crate::line::Line;
use crate::scan::with_answers;
use clap::{Arg, ArgAction, ArgMatches, Command};
use std::alloc::{AllocError, Global};

/// What the words of `records` ask for.
#[derive(Debug, Drop)]
pub struct Records {
    /// The filter.
    pub filters: Filters,
    /// Whether a name that no pattern matches is refused.
    pub strict: bool,
    /// The form of the values.
    pub forms: Forms,
    /// Whether a record is its length in 4 bytes, and its bytes.
    pub frames: bool,
    /// Whether a record is a line that ends in its length, and its bytes.
    pub sized: bool,
    /// Whether a NUL ends a line.
    pub zero: bool,
    /// Whether `\n` of two characters is passed over.
    pub copy: bool,
    /// Which field is the value, if that is said.
    pub field: Option<String>,
    /// How many bytes of a record are read at most, if that is said.
    pub most: Option<String>,
    /// Whether the filter is asked about each class name that can be read at any place.
    pub anywhere: bool,
    /// Whether records that are accepted are left out.
    pub refused: bool,
    /// Whether JSON is printed.
    pub json: bool,
    /// Whether standard error is told how far it is.
    pub progress: bool,
    /// Whether the records that are accepted are handed on.
    pub pass: bool,
    /// The file of the records, or `-` for standard input.
    pub file: String,
}

/// What `--help` tells of the command, with examples.
const EXAMPLES: &str =
    "A record is a line: fields with a TAB between them. Its value, base64 by default, is the last field,
and the others are its KEY. With --frames or --sized a record is bytes behind their length. Prints
'KEY<TAB>ANSWER' for each, ANSWER as of scan; without a KEY the record's number, from 0.

Examples:
  psql -c '\\copy (select id, data from t) to stdout' | serialcheck records --hex --refused -
  kcat -C -t events -e -f '%t-%p-%o %S\\n%s\\n' | serialcheck records --sized --refused -";

/// The command.
pub(crate) fn records_command<'a>(alloc: Global) -> Result<Command<'a>, AllocError>
    ensures app { IfOk result (λ command. app_of command ≡ records_app) }
    ensures local { IfOk result (λ command. (out-Command command).has_globals ≡ false) }
{
    let records = Command::new(alloc, "records")
        .about(
            "Checks many streams in one input, as lines of base64 or hexadecimal, or bytes behind\n\
             their length: a line for each, and the counts of all on standard error",
        )
        .after_help(EXAMPLES);
    let filtered = with_strict_filters(alloc, records)?;
    let formed = with_forms(alloc, filtered)?;
    let more = with_more(alloc, formed)?;
    more.arg(file_arg(alloc))
}

/// The command, with the arguments that say how records lie in the input, what is asked and what is printed.
fn with_more<'a>(alloc: Global, command: Command<'a>) -> Result<Command<'a>, AllocError>
    requires local { (out-Command command).has_globals ≡ false }
    ensures app { IfOk result (λ more. app_of more ≡ with_more_rules (app_of command.entry)) }
    ensures local { IfOk result (λ more. (out-Command more).has_globals ≡ false) }
{
    let laid_out = with_layout(alloc, command)?;
    let answered = with_answers(alloc, laid_out)?;
    answered.arg(pass_arg(alloc))
}

/// The command, with the arguments that say how records lie in the input.
fn with_layout<'a>(alloc: Global, command: Command<'a>) -> Result<Command<'a>, AllocError>
    requires local { (out-Command command).has_globals ≡ false }
    ensures app { IfOk result (λ more. app_of more ≡ with_layout_rules (app_of command.entry)) }
    ensures local { IfOk result (λ more. (out-Command more).has_globals ≡ false) }
{
    let shaped = with_shapes(alloc, command)?;
    let field = shaped.arg(field_arg(alloc))?;
    field.arg(most_arg(alloc))
}

/// The command, with the arguments that say where a record ends, and how its value is written.
fn with_shapes<'a>(alloc: Global, command: Command<'a>) -> Result<Command<'a>, AllocError>
    requires local { (out-Command command).has_globals ≡ false }
    ensures app { IfOk result (λ more. app_of more ≡ with_shape_rules (app_of command.entry)) }
    ensures local { IfOk result (λ more. (out-Command more).has_globals ≡ false) }
{
    let framed = command.arg(frames_arg(alloc))?;
    let sized = framed.arg(sized_arg(alloc))?;
    let ended = sized.arg(zero_arg(alloc))?;
    ended.arg(copy_arg(alloc))
}

/// Whether a record is its length in 4 bytes, and its bytes.
fn frames_arg<'a>(alloc: Global) -> Arg<'a>
    ensures rule { rule_of result ≡ frames_rule }
    ensures local { result.global ≡ false }
{
    Arg::new(alloc, "frames")
        .long("frames")
        .action(ArgAction::SetTrue)
        .help(
            "A record is its length in 4 bytes, highest first, and so many bytes; -1 is\n\
             a null",
        )
}

/// Whether a record is a line that ends in its length, and its bytes.
fn sized_arg<'a>(alloc: Global) -> Arg<'a>
    ensures rule { rule_of result ≡ sized_rule }
    ensures local { result.global ≡ false }
{
    Arg::new(alloc, "sized")
        .long("sized")
        .action(ArgAction::SetTrue)
        .help(
            "A record is a line that ends in its length in decimal, behind a space, a\n\
             TAB, a '$' or nothing, then so many bytes, and a line end: as replies of\n\
             Redis and memcached, and %S of kcat",
        )
}

/// Whether a NUL ends a line.
fn zero_arg<'a>(alloc: Global) -> Arg<'a>
    ensures rule { rule_of result ≡ zero_rule }
    ensures local { result.global ≡ false }
{
    Arg::new(alloc, "zero")
        .long("zero")
        .action(ArgAction::SetTrue)
        .help("A NUL ends a line, in place of a line feed")
}

/// Whether `\n` of two characters is passed over.
fn copy_arg<'a>(alloc: Global) -> Arg<'a>
    ensures rule { rule_of result ≡ copy_rule }
    ensures local { result.global ≡ false }
{
    Arg::new(alloc, "copy")
        .long("copy")
        .action(ArgAction::SetTrue)
        .help(
            "Passes over the two characters '\\n' in base64, as PostgreSQL's \\copy writes\n\
             a line end; not with --pass",
        )
}

/// Which field is the value.
fn field_arg<'a>(alloc: Global) -> Arg<'a>
    ensures rule { rule_of result ≡ field_rule }
    ensures local { result.global ≡ false }
{
    Arg::new(alloc, "field").long("field").value_name("N").help(
        "The value is field N of a line, from 1; the last by default",
    )
}

/// How many bytes of a record are read at most.
fn most_arg<'a>(alloc: Global) -> Arg<'a>
    ensures rule { rule_of result ≡ most_rule }
    ensures local { result.global ≡ false }
{
    Arg::new(alloc, "most").long("most").value_name("N").help(
        "Bounds one record, not the input: one of more than N bytes, 16,777,216 by\n\
             default, is passed over, and its answer is 'longer than N bytes'",
    )
}

/// Whether the records that are accepted are handed on.
fn pass_arg<'a>(alloc: Global) -> Arg<'a>
    ensures rule { rule_of result ≡ pass_rule }
    ensures local { result.global ≡ false }
{
    Arg::new(alloc, "pass")
        .long("pass")
        .action(ArgAction::SetTrue)
        .help(
            "Writes the records that are accepted, as they are, to standard output, and\n\
             the answers of the others to standard error",
        )
}

/// What its matches ask for.
pub(crate) fn records_line(alloc: Global, matches: &ArgMatches<'_>) -> Result<Line, AllocError>
    ensures { IfOk result (λ line. line_asks line ≡ records_in (rows_of (found_of matches.now))) }
{
    let filters = filters_of(alloc, matches)?;
    let field = value_of(alloc, matches, "field")?;
    let most = value_of(alloc, matches, "most")?;
    let file = text_of(alloc, matches, "file")?;
    Ok(Line::Records(Records {
        filters,
        strict: is_set(matches, "strict"),
        forms: forms_of(matches),
        frames: is_set(matches, "frames"),
        sized: is_set(matches, "sized"),
        zero: is_set(matches, "zero"),
        copy: is_set(matches, "copy"),
        field,
        most,
        anywhere: is_set(matches, "anywhere"),
        refused: is_set(matches, "refused"),
        json: is_set(matches, "json"),
        progress: is_set(matches, "progress"),
        pass: is_set(matches, "pass"),
        file,
    }))
}
