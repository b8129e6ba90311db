// Messages and their bodies: the reader. Rests on `endian`, on the table of kinds and on frames; crate `sending` has the writer.
#![tactic(auto)]

pub mod reader;
