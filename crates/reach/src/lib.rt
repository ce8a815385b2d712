// The two passes together: the masks that are kept, the least cost, and the first roster.
#![tactic(auto)]

mod alone;
mod forward;
mod past;
mod tables;
mod walk;
pub mod whole;
