// The tasks of a plan, their accesses and their dependences: definitions in specs/. There is no code here.

#![tactic(auto)]
