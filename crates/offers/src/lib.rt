// Offers: a depth with a payload of any type, as definitions, in specs/, and laws, in proofs/. There is no code here.
#![tactic(auto)]
