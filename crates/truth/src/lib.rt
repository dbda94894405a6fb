// The gradients are true: definitions in specs/, theorems in proofs/. There is no code here.
#![tactic(auto)]
