// Probe reports: what firmware says of the parts it saw.
#![tactic(auto)]

pub mod check;
pub mod fields;
pub mod layout;
pub mod report;
mod tables;
