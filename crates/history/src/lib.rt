// The history beside a run, and what follows from its facts alone: leaders hold what was committed. Everything is in specs/ and proofs/; there is nothing to run here.
#![tactic(auto)]
