// Errors in the lines, each with a run whose answers the one-at-a-time store does not allow.
// Uses the lines, the model of runs and the store; the runs are in the contract.
#![tactic(auto)]

ghost use Rattle.erring_lines.specs.Errors.{AllErrors};

// Every run of erring lines logs what is written, which the store does not allow; of the true lines it does.
pub fn errors_are_unlawful()
    ensures { AllErrors }
{}
