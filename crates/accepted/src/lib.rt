// Specs only: our own histories are always accepted.
#![tactic(auto)]
