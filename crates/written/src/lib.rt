// No code: what is claimed of the job writer over whole lists of calls, and of each call on any draft, in specs/, with its proofs.
#![tactic(auto)]
