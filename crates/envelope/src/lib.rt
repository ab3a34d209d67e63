// The envelope of a certificate: everything but its components.
#![tactic(auto)]

pub mod algorithm;
pub mod attributes;
pub mod entry;
pub mod envelope;
pub mod extensions;
pub mod identifiers;
pub mod names;
pub mod signed;
pub mod validity;
