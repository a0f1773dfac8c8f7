//! The worked examples, each run through the defined controller.
#![tactic(auto)]

ghost use Rattle.examples.specs.Examples.{ExamplesHold};

/// From a new controller over the counting drive, the calls of each example give what is written of it: the outcome of every call, and
/// the whole controller at the end.
pub fn examples_hold()
    ensures { ExamplesHold }
{}
