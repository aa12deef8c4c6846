// No code: calls on small parts beside what document 01 says that they answer, as tables in specs/, each computed in proofs/.
#![tactic(auto)]
