//! How far a command is, told once a second on standard error.
ghost use Rattle.std.specs.Prelude.{◌≡◌};
ghost use Rattle.std.specs.Io.KnownBytes.{ReadConsumes};

use jser_prim::{ToWrite, give_all};
use std::fmt::Write as WriteText;
use std::io::{self, IsTerminal, Read};
use std::time::{Duration, Instant};

/// Returns to the beginning of a terminal's line and empties it.
const CLEAR: &str = "\r\x1b[K";

/// How it is told.
#[derive(Clone, Copy, PartialEq, Eq, Debug)]
enum Way {
    /// Not at all.
    Silent,
    /// In one line of a terminal, again and again.
    Place,
    /// In a line each time.
    Lines,
}

/// How far a command is.
#[derive(Drop)]
pub(crate) struct Progress<'r> {
    rt: &'r HostRuntime,
    way: Way,
    what: &'static str,
    count: u64,
    told: Option<Instant>,
    stands: bool,
}

impl<'r> Progress<'r> {
    /// Nothing is done so far. It is told in one line where standard error is a terminal and standard output is none, and else
    /// in lines, if that is asked for. `what` names what is counted.
    pub(crate) fn new(rt: &'r HostRuntime, asked: bool, what: &'static str) -> Progress<'r> {
        if rt.stderr().is_terminal() && !rt.stdout().is_terminal() {
            Progress::told(rt, Way::Place, what)
        } else {
            Progress::in_lines(rt, asked, what)
        }
    }

    /// The progress of a command that writes its own lines to standard error: it is told only if that is asked for.
    pub(crate) fn in_lines(rt: &'r HostRuntime, asked: bool, what: &'static str) -> Progress<'r> {
        Progress::told(rt, if asked { Way::Lines } else { Way::Silent }, what)
    }

    fn told(rt: &'r HostRuntime, way: Way, what: &'static str) -> Progress<'r> {
        Progress {
            rt,
            way,
            what,
            count: 0,
            told: Instant::now(rt).ok(),
            stands: false,
        }
    }

    /// So many more are done.
    pub(crate) fn add(&mut self, count: u64) {
        self.count = self.count.saturating_add(count);
        if self.way != Way::Silent && self.is_due() {
            self.tell();
        }
    }

    /// Takes what was told off the terminal, before something else is written there.
    pub(crate) fn clear(&mut self) {
        if self.stands {
            self.write(CLEAR);
            self.stands = false;
        }
    }

    /// Whether a second has gone since it was told, or since the beginning.
    fn is_due(&mut self) -> bool {
        let (Some(told), Ok(now)) = (self.told, Instant::now(self.rt)) else {
            return false;
        };
        let is_due = now.duration_since(told) >= Duration::from_secs(1);
        if is_due {
            self.told = Some(now);
        }
        is_due
    }

    /// Tells it. Where there is no memory for the words it is not told.
    fn tell(&mut self) {
        let mut text = String::new(self.rt.alloc());
        let written = match self.way {
            Way::Place => write!(text, "{CLEAR}{} {}", self.count, self.what),
            _ => writeln!(text, "{} {}", self.count, self.what),
        };
        if written.is_ok() {
            self.stands = self.way == Way::Place;
            self.write(text.as_str());
        }
    }

    /// Writes to standard error. A device that fails hinders nothing.
    fn write(&self, text: &str) {
        let _ = give_all(&mut ToWrite::new(self.rt.stderr()), text.as_bytes());
    }
}

/// A reader whose bytes are counted.
#[derive(Drop)]
pub(crate) struct Counted<'r, R: Read> {
    reader: R,
    progress: Progress<'r>,
}

impl<'r, R: Read> Counted<'r, R> {
    /// The bytes of this reader.
    pub(crate) fn new(reader: R, progress: Progress<'r>) -> Counted<'r, R> {
        Counted { reader, progress }
    }
}

impl<R: Read> Read for Counted<'_, R> {
    ghost remaining = { λ a. R.remaining a.reader };

    fn read(&mut self, buf: &mut [u8]) -> io::Result<usize> {
        let count = self.reader.read(buf)?;
        if count == 0 {
            self.progress.clear();
        } else {
            self.progress.add(count as u64);
        }
        Ok(count)
    }
}
