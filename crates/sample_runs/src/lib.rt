// Sample runs of the lines over numbers, computed from their definitions.
// Uses the lines; the runs are in the contract.
#![tactic(auto)]

ghost use Rattle.sample_runs.specs.Samples.{AllSamples};

// Every sample run ends as written.
pub fn samples_hold()
    ensures { AllSamples }
{}
