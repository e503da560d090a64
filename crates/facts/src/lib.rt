// Specs only: the small facts P1 to P12 of document 01, one statement over one list of cases, checked by computation.
#![tactic(auto)]
