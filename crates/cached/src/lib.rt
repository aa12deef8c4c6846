// The part with its caches: definitions and laws alone, no code.
#![tactic(auto)]
