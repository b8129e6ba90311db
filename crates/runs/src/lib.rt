// No code: what holds of every run of calls on a table, proved of the table's definitions.

#![tactic(auto)]
