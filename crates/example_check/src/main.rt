//! Says whether standard input is a stream whose classes are all of `java.util`, and how large it is.
#![tactic(auto)]

// README: serialstream
use serialstream::{Filter, FromRead, Options, check_reader};

fn main(rt: HostRuntime) -> anyhow::Result<()> {
    let alloc = rt.alloc();
    let filter = Filter::parse(alloc, "java.util.*;!*;maxdepth=20")?;
    let mut input = FromRead::new(rt.stdin());
    let report = check_reader(alloc, &mut input, &filter, Options { strict: true })?;
    println!(rt; "{} bytes, {} contents", report.bytes, report.contents)?;
    Ok(())
}
// end
