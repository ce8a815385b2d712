// The text of sheets and jobs: bytes, decimal numbers, and lines of fields.
#![tactic(auto)]

pub mod bytes;
pub mod lines;
pub mod numbers;
pub mod puts;
