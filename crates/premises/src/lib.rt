// No code: that the premises of the joined pair are met.
#![tactic(auto)]
