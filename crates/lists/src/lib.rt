// Lists by number, and tests of them: definitions and laws, in specs/. There is no code here.
#![tactic(auto)]
