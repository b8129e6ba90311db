// The kept rows' tickets in two flat forms: aligned with the slots, for the graph, and packed one behind the other, for orders.
#![tactic(auto)]

pub mod aligned;
pub mod packed;
