// What an inventory means, what a layer over it does, and what a history of calls settles.
#![tactic(auto)]

pub mod laws;
pub mod part;
