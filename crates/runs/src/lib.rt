// Theory that knows no machine: see specs/. There is no code here.

#![tactic(auto)]
