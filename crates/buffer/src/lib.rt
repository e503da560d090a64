// A text laid at the front of a lent output, or 19: what such a function replies and leaves stands in specs/, and its laws in proofs/.
#![tactic(auto)]
