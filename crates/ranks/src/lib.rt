// Arcs by rising cost: a row of sixteen for each state, so that a look along it can stop where no dearer arc is of use.
#![tactic(auto)]

pub mod arc;
pub mod pull;
pub mod rank;
