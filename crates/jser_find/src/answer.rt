//! The answer for a stream that was found.
ghost use Rattle.jser_find.specs.Answers.{IsJudged};
ghost use Rattle.jser_scan.specs.NamePlaces.{NameStands, TellsName};

use jser_check::{Options, Stop, check_bytes};
use jser_scan::{Found, Rules, refused_in};
use std::alloc::Global;

/// What the check finds in these bytes under these rules, with the class name where the filter refused one. Names at any place
/// are not asked about.
#[tactic(auto, using(crate::proofs::AnswerLemmas::judged_accepted, crate::proofs::AnswerLemmas::judged_refused))]
pub fn judge(alloc: Global, rules: &Rules, bytes: &[u8]) -> Found
    ensures found { IsJudged rules.now bytes.now result }
    ensures name { NameStands bytes.now result }
    ensures told { TellsName rules.now bytes.now result }
{
    let options = Options {
        strict: rules.strict,
    };
    match check_bytes(alloc, bytes, &rules.filter, options) {
        Ok(totals) => Found::Accepted(totals),
        Err(Stop::Refused(refusal)) => refused_in(alloc, rules, bytes, refusal),
        Err(_) => Found::OutOfMemory,
    }
}
