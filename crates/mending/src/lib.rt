// What it means to mend a drawn roster, and to check a mended one: definitions and their laws alone, so this crate has no code.
#![tactic(auto)]
