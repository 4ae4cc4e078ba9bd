// Runs computed up to the figures: see specs/. There is no code here.

#![tactic(auto)]
