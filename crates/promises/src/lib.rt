// No code: what the project promises, each promise one statement, in the sequence of the three demands.

#![tactic(auto)]
