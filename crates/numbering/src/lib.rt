// How the states of an automaton are numbered, breadth first, and the sheet that is made of them: definitions and their laws alone, so this crate has no code.
#![tactic(auto)]
