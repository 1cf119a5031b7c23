// Opening a journal, as definitions, and what is proved of it. Everything is in specs/ and proofs/; the code is the crate `opening`.
#![tactic(auto)]
