// No code: what is claimed of the crates below, in statements that a reader can quote.
#![tactic(auto)]
