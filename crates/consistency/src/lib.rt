// Specs only: of every state that accepted events give from a fresh start, the one order is sequentially consistent.
#![tactic(auto)]
