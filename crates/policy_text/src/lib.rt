// No code yet.

#![tactic(auto)]
