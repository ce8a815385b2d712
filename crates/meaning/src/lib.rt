// What a rule set means: definitions and their laws alone, so this crate has no code.
#![tactic(auto)]
