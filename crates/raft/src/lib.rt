// The box's rules, as definitions: what a step is, and what is proved of it. Everything is in specs/ and proofs/; there is nothing to run here.
#![tactic(auto)]
