// Specs only: Algorithm 1 of the paper, line by line, and demand 2: the bench is SC-ABD, and every execution of SC-ABD within the limits is
// accepted.
#![tactic(auto)]
