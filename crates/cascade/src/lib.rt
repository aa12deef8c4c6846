// No code: proofs/Picks.antt has the rules by which every crate's proofs follow a cascade of tests.
#![tactic(auto)]
