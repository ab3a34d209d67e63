// The readers that certificates are built of: where a content stands, elements with their rules, lists of entries.
#![tactic(auto)]

pub mod entries;
pub mod kind;
pub mod leaf;
pub mod span;
