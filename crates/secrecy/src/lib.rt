// No code: demand 3, what two parts that differ in main flash show of every list of calls, in specs/, with its proof.
#![tactic(auto)]
