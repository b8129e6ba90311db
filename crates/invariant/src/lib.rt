// No code: what always holds of a table, and that every call keeps it. specs/Invariant.antt, proofs/InvariantLaws.antt.

#![tactic(auto)]
