// Specs only: the one order of document 01, and the theorem that it is sequentially consistent.
#![tactic(auto)]
