//! Gates: what may pass besides being a stream (`ObjectInputFilter`, JEP 290: the limits of a filter, and its
//! answer to the name of each class).
ghost use Rattle.std.specs.Prelude.{◌≡◌, ℕ, ◌≢◌};
ghost use Rattle.jser_table.specs.Names.{name_kind, malformed_name};
ghost use Rattle.jser_verdict.specs.Gates.{Gate as ToldGate, IsGate, pass};
ghost use Rattle.jser_reader.specs.Gates.{view_answer, open_gate, AreLimitsOf};

use jser_grammar::caps::{MOST_ARRAY, MOST_BYTES, MOST_DEPTH, MOST_HANDLES, MOST_REFS};

/// What a gate says of the name of a class.
#[derive(Clone, Copy, PartialEq, Eq, Hash, Debug)]
pub enum Answer {
    /// It may pass.
    Pass,
    /// It is rejected: the stream is refused as `ClassRejected`.
    Rejected,
    /// No pattern matches it, and that is not enough: the stream is refused as `ClassUnmatched`.
    Unmatched,
}

/// The limits of a gate: the greatest numbers that it lets pass.
#[derive(Clone, Copy, PartialEq, Eq, Hash, Debug)]
pub struct Limits {
    /// Bytes of the stream: at most 2^40.
    pub bytes: u64,
    /// Depth of a place: at most 65,535.
    pub depth: u32,
    /// Places: at most 2^63 - 1.
    pub refs: u64,
    /// Elements of an array: at most 2^31 - 1.
    pub array: u32,
    /// Handles in an epoch: at most 2,139,226,112.
    pub handles: u32,
}

/// Limits, and an answer to each checked name: that of each plain descriptor, and each interface of a proxy.
///
/// Each answer depends on the gate and the question alone. `limits` is made of the other calls.
pub trait Gate {
    /// What the gate is, as the definitions of refusals see it.
    ghost told: { Self → ToldGate };

    /// What it says of this name, which is not malformed.
    fn name(&self, name: &[u16]) -> Answer
        requires { name_kind name.now ≢ malformed_name }
        ensures { view_answer result ≡ (told self.now).answer name.now };

    /// The greatest number of bytes: at most 2^40.
    fn max_bytes(&self) -> u64
        ensures { result ≡ (told self.now).bytes };

    /// The greatest depth of a place: at most 65,535.
    fn max_depth(&self) -> u32
        ensures { result ≡ (told self.now).depth };

    /// The greatest number of places: at most 2^63 - 1.
    fn max_refs(&self) -> u64
        ensures { result ≡ (told self.now).refs };

    /// The greatest length of an array: at most 2^31 - 1.
    fn max_array(&self) -> u32
        ensures { result ≡ (told self.now).array };

    /// The greatest number of handles in an epoch: at most 2,139,226,112.
    fn max_handles(&self) -> u32
        ensures { result ≡ (told self.now).handles };

    /// All its limits.
    fn limits(&self) -> Limits
        ensures { AreLimitsOf (told self.now) result }
    {
        Limits {
            bytes: self.max_bytes(),
            depth: self.max_depth(),
            refs: self.max_refs(),
            array: self.max_array(),
            handles: self.max_handles(),
        }
    }

    /// The limits are at most the caps.
    ghost within: { (gate : Self) → IsGate (told gate) };
}

/// The gate that passes all names, and has the greatest limits.
#[derive(Clone, Copy, PartialEq, Eq, Debug)]
pub struct OpenGate;

impl Gate for OpenGate {
    ghost told = { λ _. open_gate };

    fn name(&self, _: &[u16]) -> Answer {
        Answer::Pass
    }

    fn max_bytes(&self) -> u64 {
        MOST_BYTES
    }

    fn max_depth(&self) -> u32 {
        MOST_DEPTH
    }

    fn max_refs(&self) -> u64 {
        MOST_REFS
    }

    fn max_array(&self) -> u32 {
        MOST_ARRAY
    }

    fn max_handles(&self) -> u32 {
        MOST_HANDLES
    }

    ghost use Rattle.std.proofs.Common.{rules};

    ghost within = { λ _. Prim.search rules };
}
