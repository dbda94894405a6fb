// A removal seen beforehand: definitions in specs/, and laws of them in proofs/. There is no code here.
#![tactic(auto)]
