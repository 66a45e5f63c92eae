//! What is wrong with a filter's text or a table of modules, and where.
use std::alloc::AllocError;
use std::error::Error;
use std::fmt;

/// What is wrong with a piece of a filter's text. Where several of these apply, the first is told.
#[derive(Clone, Copy, PartialEq, Eq, Debug)]
pub enum FilterCause {
    /// A limit with none of the names `maxdepth`, `maxrefs`, `maxbytes` and `maxarray`.
    UnknownLimit,
    /// The value of a limit is not a number from 0 to 2^63 - 1.
    BadLimit,
    /// There is nothing before the first `/`.
    ModuleMissing,
    /// The name pattern is empty.
    NameMissing,
    /// The name pattern is `.*` or `.**` alone.
    PackageMissing,
    /// Memory ran out for the piece.
    OutOfMemory,
}

/// The first faulty piece of a filter's text, counted from 0 with empty pieces and limits included.
#[derive(Clone, Copy, PartialEq, Eq, Debug)]
pub struct FilterFault {
    /// The piece.
    pub pattern: usize,
    /// What is wrong with it.
    pub cause: FilterCause,
}

impl From<AllocError> for FilterCause {
    ghost use Rattle.std.specs.Prelude.{◌≡◌};
    ghost use Rattle.jser_filter.specs.declared.fault.FilterCause.TheVariants.{OutOfMemory};

    ghost from_gives = { λ _ cause. cause ≡ OutOfMemory };

    fn from(_error: AllocError) -> FilterCause {
        FilterCause::OutOfMemory
    }
}

impl fmt::Display for FilterCause {
    ghost use Rattle.std.specs.Prelude.{Some};
    ghost use Rattle.jser_filter.specs.Faults.{cause_text};

    ghost output = { λ cause. Some (cause_text cause) };

    fn fmt<W: fmt::Write>(&self, f: &mut fmt::Formatter<W>) -> fmt::Result {
        match self {
            FilterCause::UnknownLimit => write!(f, "UnknownLimit"),
            FilterCause::BadLimit => write!(f, "BadLimit"),
            FilterCause::ModuleMissing => write!(f, "ModuleMissing"),
            FilterCause::NameMissing => write!(f, "NameMissing"),
            FilterCause::PackageMissing => write!(f, "PackageMissing"),
            FilterCause::OutOfMemory => write!(f, "OutOfMemory"),
        }
    }
}

impl fmt::Display for FilterFault {
    ghost use Rattle.std.specs.Prelude.{Some};
    ghost use Rattle.jser_filter.specs.Faults.{fault_text};

    ghost output = { λ fault. Some (fault_text fault) };

    fn fmt<W: fmt::Write>(&self, f: &mut fmt::Formatter<W>) -> fmt::Result {
        let (pattern, cause) = (self.pattern, self.cause);
        write!(f, "filter pattern {pattern}: {cause}")
    }
}

impl Error for FilterCause {}

impl Error for FilterFault {}

/// What is wrong with a line of a table of modules. Where both apply, the first is told.
#[derive(Clone, Copy, PartialEq, Eq, Debug)]
pub enum ModulesCause {
    /// Not exactly one `=`, or an empty side.
    BadLine,
    /// The package stands in an earlier line.
    PackageTwice,
    /// Memory ran out for the line.
    OutOfMemory,
}

/// The first faulty line of a table of modules, counted from 0 with empty lines included.
#[derive(Clone, Copy, PartialEq, Eq, Debug)]
pub struct ModulesFault {
    /// The line.
    pub line: usize,
    /// What is wrong with it.
    pub cause: ModulesCause,
}

impl From<AllocError> for ModulesCause {
    ghost use Rattle.std.specs.Prelude.{◌≡◌};
    ghost use Rattle.jser_filter.specs.declared.fault.ModulesCause.TheVariants.{OutOfMemory};

    ghost from_gives = { λ _ cause. cause ≡ OutOfMemory };

    fn from(_error: AllocError) -> ModulesCause {
        ModulesCause::OutOfMemory
    }
}

impl fmt::Display for ModulesCause {
    ghost use Rattle.std.specs.Prelude.{Some};
    ghost use Rattle.jser_filter.specs.Faults.{modules_cause_text};

    ghost output = { λ cause. Some (modules_cause_text cause) };

    fn fmt<W: fmt::Write>(&self, f: &mut fmt::Formatter<W>) -> fmt::Result {
        match self {
            ModulesCause::BadLine => write!(f, "BadLine"),
            ModulesCause::PackageTwice => write!(f, "PackageTwice"),
            ModulesCause::OutOfMemory => write!(f, "OutOfMemory"),
        }
    }
}

impl fmt::Display for ModulesFault {
    ghost use Rattle.std.specs.Prelude.{Some};
    ghost use Rattle.jser_filter.specs.Faults.{modules_fault_text};

    ghost output = { λ fault. Some (modules_fault_text fault) };

    fn fmt<W: fmt::Write>(&self, f: &mut fmt::Formatter<W>) -> fmt::Result {
        let (line, cause) = (self.line, self.cause);
        write!(f, "modules line {line}: {cause}")
    }
}

impl Error for ModulesCause {}

impl Error for ModulesFault {}
