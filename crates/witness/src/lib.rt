// Each function whose contract the promises speak of, called by a function that is proved to give just what promises/specs/Stated
// says of it. Nothing calls these: they are here so that the prover, and not the reader, compares that file with the code.
#![tactic(auto)]

mod calls;
mod checks;
mod lends;
mod loans;
mod messages;
