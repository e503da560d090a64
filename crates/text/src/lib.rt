// The text of a replay, written into a lent buffer.
#![tactic(auto)]

pub mod lines;
mod listing;
pub mod numbers;
pub mod page;
pub mod refused;
mod registers;
mod replicas;
pub mod rows;
pub mod tail;
