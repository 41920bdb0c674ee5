// The law of a house over every run.
#![tactic(auto)]

ghost use Rattle.law.specs.Law.{Law};

/// The law, as a theorem.
pub fn law_stands()
    ensures { Law }
{}
