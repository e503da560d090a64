// The schedule file, from bytes to events. Length first, version 1, N, M, then events; all big-endian.
#![tactic(auto)]

pub mod events;
pub mod file;
pub mod kinds;
mod numbers;
