// No code: proofs/ has the proof of each function that lends its table, once for every table. README.md says how to cite it.

#![tactic(auto)]
