// No code: definitions and laws on numbers, tests and lists that every layer cites.
#![tactic(auto)]
