//! Prints the names of the classes of the stream on standard input, each as soon as it has come, and then how large the
//! stream is, or why it is none.
#![tactic(auto)]

use anyhow::Result;
use serialstream::{FeedFault, Item, OpenGate, Reader, TC_CLASSDESC, Visit, Whereabouts};
use std::io::Read;
use std::str;

/// Prints names, and keeps the one that is being read.
#[derive(Drop)]
struct Names<'r> {
    rt: &'r HostRuntime,
    is_name: bool,
    name: Vec<u8>,
    left: u64,
}

impl<'r> Names<'r> {
    fn new(rt: &'r HostRuntime) -> Names<'r> {
        Names {
            rt,
            is_name: false,
            name: Vec::new(rt.alloc()),
            left: 0,
        }
    }

    /// Keeps bytes of the name, after which so many are left, and prints it where none is.
    fn add(&mut self, part: &[u8], left: u64) -> Result<()> {
        self.name.extend_from_slice(part)?;
        self.left = left;
        if left == 0 {
            print_name(self.rt, &self.name)?;
        }
        Ok(())
    }
}

impl Visit for Names<'_> {
    type Fault = anyhow::Error;

    fn item(&mut self, item: Item<'_>, _: Whereabouts) -> Result<()> {
        match item {
            Item::Tag(tag) => self.is_name = tag == TC_CLASSDESC,
            Item::InterfaceCount(_) => self.is_name = true,
            Item::TypeCode(_) => self.is_name = false,
            Item::TextLength(len) if self.is_name => {
                self.name.clear();
                self.add(&[], len)?;
            }
            Item::TextPart(part) if self.is_name => {
                self.add(part, self.left.saturating_sub(part.len() as u64))?;
            }
            _ => {}
        }
        Ok(())
    }
}

fn main(rt: HostRuntime) -> Result<()> {
    let mut reader = Reader::new(rt.alloc(), OpenGate);
    let mut names = Names::new(&rt);
    let mut input = rt.stdin();
    let mut buffer = [0; 4096];
    for _ in 0..u64::MAX {
        let count = input.read(&mut buffer)?;
        if count == 0 {
            break;
        }
        match reader.feed(&buffer[..count], &mut names) {
            Ok(()) => {}
            Err(FeedFault::Reader(stop)) => return Err(stop.into()),
            Err(FeedFault::Visitor(fault)) => return Err(fault),
        }
    }
    let totals = reader.finish()?;
    println!(rt; "{} bytes", totals.bytes)?;
    Ok(())
}

/// Prints a name, or its bytes where they are not printable ASCII: whoever wrote the stream has chosen them.
fn print_name(rt: &HostRuntime, name: &[u8]) -> Result<()> {
    match str::from_utf8(name) {
        Ok(text) if is_plain(name) => println!(rt; "{text}")?,
        _ => println!(rt; "{name:?}")?,
    }
    Ok(())
}

/// Whether a name is printable ASCII, so that nothing in it can do anything to a terminal.
fn is_plain(name: &[u8]) -> bool {
    name.iter().all(|byte| (0x20..=0x7E).contains(byte))
}
