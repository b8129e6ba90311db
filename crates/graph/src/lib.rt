// No code: paths, cycles and orders of a graph over any relation, their computed tests, and the laws that join them.

#![tactic(auto)]
