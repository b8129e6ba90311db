// The arrows of a ticket table as a test; specs/ says when a table is good, when a list is an order of it, and what the check and the
// writer answer. RULES, Orders.
#![tactic(auto)]

pub use arrow::goes_before;

mod arrow;
