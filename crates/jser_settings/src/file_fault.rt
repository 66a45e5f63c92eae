//! What is wrong with a line of a filter's file. In a filter's text each such sign is one of a name, as for the JDK; in a file it
//! is a slip, and a pattern with it matches no class.
use std::error::Error;
use std::fmt;

/// What is wrong with a line of a filter's file. Where several of these apply, the first is told.
#[derive(Clone, Copy, PartialEq, Eq, Debug)]
pub enum FileCause {
    /// The file begins with a byte order mark.
    ByteOrderMark,
    /// A piece has a `#`.
    NumberSign,
    /// A piece begins or ends with a sign that nobody sees: of Unicode's general category Cc, Cf, Zs, Zl or Zp.
    WhiteSpace,
}

/// The first faulty line of a filter's file, counted from 0.
#[derive(Clone, Copy, PartialEq, Eq, Debug)]
pub struct FileFault {
    /// The line.
    pub line: usize,
    /// What is wrong with it.
    pub cause: FileCause,
}

impl fmt::Display for FileCause {
    ghost use Rattle.std.specs.Prelude.{Some};
    ghost use Rattle.jser_settings.specs.FileFaults.{file_cause_text};

    ghost output = { λ cause. Some (file_cause_text cause) };

    fn fmt<W: fmt::Write>(&self, f: &mut fmt::Formatter<W>) -> fmt::Result {
        match self {
            FileCause::ByteOrderMark => write!(f, "ByteOrderMark"),
            FileCause::NumberSign => write!(f, "NumberSign"),
            FileCause::WhiteSpace => write!(f, "WhiteSpace"),
        }
    }
}

impl fmt::Display for FileFault {
    ghost use Rattle.std.specs.Prelude.{Some};
    ghost use Rattle.jser_settings.specs.FileFaults.{file_fault_text};

    ghost output = { λ fault. Some (file_fault_text fault) };

    fn fmt<W: fmt::Write>(&self, f: &mut fmt::Formatter<W>) -> fmt::Result {
        let (line, cause) = (self.line, self.cause);
        write!(f, "filter line {line}: {cause}")
    }
}

impl Error for FileCause {}

impl Error for FileFault {}
