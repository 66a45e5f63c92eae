//! `suggest`: the least filter that admits some good files.
ghost use Rattle.std.specs.Prelude.{◌≡◌, ◌≢◌, ◌⊎◌, ◌≤◌, IfErr};

use crate::files::{Opened, path_of, unopened};
use crate::new_key;
use jser_inputs::{Decoded, Form, Input};
use jser_names::{Keyed, NamesFault, found_of};
use jser_prim::{FromRead, Sink};
use jser_reader::Stop;
use jser_scan::{Found, print_suggested, tell_found, tell_no_sample};
use jser_settings::{FAILED, tell_failure};
use jser_suggest::{SampleFault, Samples};

/// Why a file is no sample.
#[derive(Drop)]
enum NoSample {
    /// It was not opened, or not read.
    Unread(Found),
    /// It was read.
    Read(SampleFault),
}

/// Prints the filter that is suggested for these files, with its limits `slack` times as high, or tells the first file that is
/// no good one.
pub(crate) fn suggest_from<W: Sink, E: Sink>(
    rt: &HostRuntime,
    form: Form,
    slack: u64,
    files: &[String],
    output: &mut W,
    faults: &mut E,
) -> u8
    ensures status { result ≤ 3 }
    ensures unbroken { result ≢ 3 → W.has_failed output.new ≡ W.has_failed output.old }
    ensures misuse { result ≡ 2 → output.new ≡ output.old }
{
    let keyed = match new_key(rt, faults) {
        Ok(keyed) => keyed,
        Err(status) => return status,
    };
    let mut samples = Samples::new(rt.alloc());
    match learn_all(rt, keyed, form, files, &mut samples, faults) {
        Ok(()) => print_suggested(rt.alloc(), &samples, slack, output, faults),
        Err(status) => status,
    }
}

/// Takes one file after another. Their names are counted under this key.
///
/// # Errors
///
/// The status, after the line of the first file that is no good one.
fn learn_all<E: Sink>(
    rt: &HostRuntime,
    keyed: Keyed,
    form: Form,
    files: &[String],
    samples: &mut Samples,
    faults: &mut E,
) -> Result<(), u8>
    ensures { IfErr result (λ status. status ≤ 3) }
{
    for file in files {
        if let Err(fault) = learn(rt, keyed, form, file.as_str(), samples) {
            return Err(tell(rt, file.as_str(), &fault, faults));
        }
    }
    Ok(())
}

/// Takes a file, or standard input where it is named `-`.
fn learn(
    rt: &HostRuntime,
    keyed: Keyed,
    form: Form,
    file: &str,
    samples: &mut Samples,
) -> Result<(), NoSample> {
    match Opened::new(rt, file) {
        Ok(opened) => learn_input(
            rt,
            keyed,
            &mut Decoded::new(FromRead::new(opened), form),
            samples,
        ),
        Err(error) => Err(NoSample::Unread(unopened(&error))),
    }
}

/// Takes an opened input, which is read once. Of one that is no stream nothing is kept.
fn learn_input<R: Input>(
    rt: &HostRuntime,
    keyed: Keyed,
    input: &mut R,
    samples: &mut Samples,
) -> Result<(), NoSample> {
    match found_of(rt.alloc(), keyed, input) {
        Ok(found) => match samples.add_found(rt.alloc(), &found) {
            Ok(()) => Ok(()),
            Err(fault) => Err(NoSample::Read(fault)),
        },
        Err(NamesFault::Refused(refusal)) => {
            Err(NoSample::Read(SampleFault::Stop(Stop::Refused(refusal))))
        }
        Err(NamesFault::OutOfMemory) => Err(NoSample::Read(SampleFault::Stop(Stop::OutOfMemory))),
        Err(NamesFault::ReadFault) => Err(NoSample::Unread(Found::NotRead(input.fault()))),
    }
}

/// Tells why a file is no sample, and returns the status.
fn tell<E: Sink>(rt: &HostRuntime, file: &str, fault: &NoSample, faults: &mut E) -> u8
    ensures { result ≤ 3 }
{
    let Ok(path) = path_of(rt.alloc(), file) else {
        return tell_failure(faults, "out of memory\n");
    };
    match fault {
        NoSample::Unread(found) => {
            tell_found(&path, found, faults);
            FAILED
        }
        NoSample::Read(fault) => tell_no_sample(&path, fault, faults),
    }
}
