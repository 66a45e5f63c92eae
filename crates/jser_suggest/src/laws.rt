//! Laws of the definitions alone: what the filter promises that `Samples::text` writes.
ghost use Rattle.jser_suggest.specs.Laws.{Admits, AdmitsWidened, AllowsOnly, IsLeast, OnlyWritable};

/// It admits each of the streams, whether or not the check is strict.
pub fn admits()
    ensures { Admits }
{}

/// It admits each of them also where its limits are some times as high, as `Samples::text_with_slack` writes them.
pub fn admits_widened()
    ensures { AdmitsWidened }
{}

/// It allows the name of a class exactly if that is an element name of one of the streams.
pub fn allows_only()
    ensures { AllowsOnly }
{}

/// With any limit lower, or any name left out, one of the streams is refused.
pub fn is_least()
    ensures { IsLeast }
{}

/// A name that `Samples::add` tells as one that cannot be written is allowed alone by no piece of any filter's text, unless it
/// has a sign that is not plain.
pub fn only_writable()
    ensures { OnlyWritable }
{}
