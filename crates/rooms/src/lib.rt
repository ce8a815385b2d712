// The backward pass: rows, the rule tables turned, and the needs of all layers.
#![tactic(auto)]

pub mod backward;
pub mod near;
pub mod rows;
pub mod turn;
