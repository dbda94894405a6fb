// What a pass sees of a map: definitions, in specs/, and theorems, in proofs/. There is no code here.
#![tactic(auto)]
