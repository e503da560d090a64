// Specs only: what the public functions promise together, in their own terms, the bench and the lent tables: demand 1 of any call, and demand 3 from `start` on.
#![tactic(auto)]
