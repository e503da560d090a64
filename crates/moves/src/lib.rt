// Specs only: what an accepted event does, one case for each thing that can happen; the request numbers, the exchanges of a request and its reply,
// and a step without the limit of events.
#![tactic(auto)]
