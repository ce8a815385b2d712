// What a pattern on one line means, and the sheet that it is: definitions and their laws alone, so this crate has no code.
#![tactic(auto)]
