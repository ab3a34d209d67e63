// Reading DER: one element at a time, the rules of its content, and why bytes are refused.
#![tactic(auto)]

pub mod content;
pub mod cursor;
pub mod element;
mod number;
pub mod refusal;
pub mod tag;
#[cfg(test)]
mod tests;
pub mod time;
