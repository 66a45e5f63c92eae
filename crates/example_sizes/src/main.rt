//! Says how many objects of each class the stream on standard input has, and how many bytes they take: a line for each
//! class, in the order in which they come. The bytes of an object are those from its tag to its end, without those of the
//! objects inside it; a class descriptor counts to the object that brings it.
#![tactic(auto)]

mod sizes;

use crate::sizes::{Class, Sizes};
use anyhow::Result;
use serialstream::{OpenGate, Reader, Step};
use std::io::Read;
use std::str;

fn main(rt: HostRuntime) -> Result<()> {
    let mut reader = Reader::new(rt.alloc(), OpenGate);
    let mut sizes = Sizes::new(rt.alloc());
    let mut input = rt.stdin();
    let mut buffer = [0; 4096];
    for _ in 0..u64::MAX {
        let count = input.read(&mut buffer)?;
        if count == 0 {
            break;
        }
        measure(&mut reader, &mut sizes, &buffer[..count])?;
    }
    let totals = reader.finish()?;
    for class in sizes.classes() {
        print_class(&rt, class)?;
    }
    println!(rt; "{} bytes in all", totals.bytes)?;
    Ok(())
}

/// Goes along the items of a piece.
fn measure(reader: &mut Reader<OpenGate>, sizes: &mut Sizes, piece: &[u8]) -> Result<()> {
    let mut done = 0;
    'items: while done < piece.len() {
        let (_, rest) = piece.split_at(done);
        let frames = reader.open_frames();
        let handle = reader.epoch_handles();
        let Step::Item { item, used } = reader.next(rest)? else {
            break;
        };
        sizes.begin(item, frames, handle)?;
        sizes.end(used as u64, reader.open_frames());
        done += used;
    }
    Ok(())
}

/// Prints a class of which there are objects; its name as bytes where they are not printable ASCII: whoever wrote the stream
/// has chosen them.
fn print_class(rt: &HostRuntime, class: &Class) -> Result<()> {
    let (objects, bytes) = (class.objects, class.bytes);
    if objects == 0 {
        return Ok(());
    }
    match str::from_utf8(&class.name) {
        Ok(name) if is_plain(&class.name) => {
            println!(rt; "{objects} objects, {bytes} bytes: {name}")?
        }
        _ => println!(rt; "{objects} objects, {bytes} bytes: {:?}", class.name)?,
    }
    Ok(())
}

/// Whether a name is printable ASCII, so that nothing in it can do anything to a terminal.
fn is_plain(name: &[u8]) -> bool {
    name.iter().all(|byte| (0x20..=0x7E).contains(byte))
}
