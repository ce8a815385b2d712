// What a session is and what its calls answer and leave: definitions and their laws alone, so this crate has no code.
#![tactic(auto)]
