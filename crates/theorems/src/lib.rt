// Nothing here runs: the statements and 01's examples are in specs/, the proofs of the theorems in proofs/.
#![tactic(auto)]
