// The configuration of a certificate: its components, where they stand in the file and what they mean.
#![tactic(auto)]

pub mod component;
pub mod configuration;
pub mod key;
pub mod list;
pub mod meaning;
pub mod places;
pub mod registry;
#[cfg(test)]
mod tests;
