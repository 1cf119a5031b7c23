// What a host may do with the calls, its disks and its network, and that each such run is one of demand 3's. Everything is in specs/ and proofs/.
#![tactic(auto)]
