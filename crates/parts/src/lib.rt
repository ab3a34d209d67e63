// Parts with their real keys and details, inventories of them, and audits.
#![tactic(auto)]

pub mod audit;
pub mod bounded;
pub mod details;
pub mod head;
pub mod inventory;
pub mod key;
pub mod laws;
#[cfg(test)]
mod tests;
pub mod walk;
