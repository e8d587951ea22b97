//! The law of samples. Its function does nothing; a caller cites what it ensures.
ghost use Rattle.sa_sample.specs.Laws.{SamplesAreScripts};

/// Each sample is a script without a fault, whatever its number is.
pub fn samples_are_scripts()
    ensures { SamplesAreScripts }
{}
