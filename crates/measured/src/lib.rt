// Specs only: that the numbers of a sheet are what the events and the rows of its schedules say.
#![tactic(auto)]
