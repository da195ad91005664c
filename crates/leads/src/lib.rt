// No code: what follows from the order in which an open end's rules apply.
#![tactic(auto)]
