//! The gate of a filter: what a filter and its options let pass besides being a stream.
ghost use Rattle.std.specs.Prelude.{◌≡◌, ◌≤◌, ◌↔◌, ℕ, List};
ghost use Rattle.jser_grammar.specs.Trees.{ContentTrees};
ghost use Rattle.jser_reader.specs.Gates.{view_answer};
ghost use Rattle.jser_verdict.specs.Passing.{Passes};
ghost use Rattle.jser_check.specs.Admitted.{lesser, answer_at, gate_of_filter, IsAdmitted};

use crate::holds::Holds;
use jser_filter::{Filter, Verdict};
use jser_grammar::caps::{MOST_ARRAY, MOST_BYTES, MOST_DEPTH, MOST_HANDLES, MOST_REFS};
use jser_reader::{Answer, Gate, Limits};
use std::marker::Model;

/// How a filter is applied.
#[derive(Clone, Copy, PartialEq, Eq, Hash, Debug)]
pub struct Options {
    /// Whether a name that no pattern matches is refused, as `ClassUnmatched`.
    pub strict: bool,
}

/// The gate of a filter, from whatever holds it: it lets pass what the filter admits. None of its calls takes memory.
///
/// Each limit is the lesser of the filter's and the greatest one. A name that the filter allows passes, and so does
/// one that names no class; one that no pattern matches passes unless the options are strict.
#[derive(Debug, Drop)]
pub struct HeldGate<F: Holds> {
    holder: F,
    options: Options,
}

/// The gate of a filter that is kept elsewhere.
pub type FilterGate<'f> = HeldGate<&'f Filter>;

impl<F: Holds> Model for HeldGate<F> {
    ghost use Rattle.jser_check.specs.Admitted.{FilterWith};

    ghost Value = { FilterWith };

    ghost view = { λ a. record { filter = F.held a.holder; options = a.options } };
}

impl<F: Holds> HeldGate<F> {
    /// The gate of the filter that this holds: of `&filter`, say.
    pub fn new(holder: F, options: Options) -> HeldGate<F>
        ensures filter { result.filter ≡ F.held holder }
        ensures options { result.options ≡ options }
        ensures exact { (bytes : List ℕ) (list : ContentTrees) → IsAdmitted (F.held holder) options bytes list
            ↔ Passes (gate_of_filter (F.held holder) options) bytes list }
    {
        HeldGate { holder, options }
    }

    /// What holds the filter.
    pub fn holder(&self) -> &F
        ensures { F.held result.now ≡ self.now.filter }
    {
        &self.holder
    }

    /// How the filter is applied.
    pub fn options(&self) -> Options
        ensures { result ≡ self.now.options }
    {
        self.options
    }
}

impl<F: Holds> Gate for HeldGate<F> {
    ghost told = { λ gate. gate_of_filter gate.filter gate.options };

    #[tactic(auto, using(crate::proofs::AdmittedLemmas::judges))]
    fn name(&self, name: &[u16]) -> Answer {
        answer_at(self.options, self.holder.filter().judge(name))
    }

    fn max_bytes(&self) -> u64 {
        self.limits().bytes
    }

    fn max_depth(&self) -> u32 {
        self.limits().depth
    }

    fn max_refs(&self) -> u64 {
        self.limits().refs
    }

    fn max_array(&self) -> u32 {
        self.limits().array
    }

    fn max_handles(&self) -> u32 {
        MOST_HANDLES
    }

    // The text is looked through once for all of them.
    fn limits(&self) -> Limits {
        let limits = self.holder.filter().limits();
        Limits {
            bytes: lesser(limits.bytes, MOST_BYTES),
            depth: lesser(limits.depth, u64::from(MOST_DEPTH)) as u32,
            refs: lesser(limits.refs, MOST_REFS),
            array: lesser(limits.array, u64::from(MOST_ARRAY)) as u32,
            handles: MOST_HANDLES,
        }
    }

    ghost use Rattle.jser_check.specs.Caps.{keeps_caps};

    ghost within = { λ gate. keeps_caps gate.filter gate.options };
}

/// What a gate answers to a name of which the filter says this.
fn answer_at(options: Options, verdict: Verdict) -> Answer
    ensures { view_answer result ≡ answer_at options verdict }
{
    match verdict {
        Verdict::Allowed(_) | Verdict::NoClass => Answer::Pass,
        Verdict::Rejected(_) => Answer::Rejected,
        Verdict::Undecided => {
            if options.strict {
                Answer::Unmatched
            } else {
                Answer::Pass
            }
        }
    }
}

/// The lesser of a limit, if there is one, and the greatest.
fn lesser(limit: Option<u64>, most: u64) -> u64
    ensures is { result ≡ lesser limit most }
    ensures within { result ≤ most }
{
    match limit {
        None => most,
        Some(limit) => limit.min(most),
    }
}
