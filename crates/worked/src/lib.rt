// Limits and boards worked by hand, and proved of the rules.
#![tactic(auto)]

ghost use Rattle.worked.specs.Examples.{AllRight, examples};

/// Each example worked by hand is as the rules say.
pub fn worked_examples()
    ensures { AllRight examples }
{}
