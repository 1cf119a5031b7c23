// Demand 3: runs of a whole park, and what is proved of them. Everything is in specs/ and proofs/.
#![tactic(auto)]
