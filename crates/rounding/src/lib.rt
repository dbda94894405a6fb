// The order of finite floats and of rounded results: laws, in specs/. There is no code here.
#![tactic(auto)]
