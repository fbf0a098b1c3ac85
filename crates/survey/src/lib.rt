// Rules 2 to 6 of the whole-store check, on the words: handles, logs, and what tasks hold.
// Rule2, Rule3, Marked, Counts and Chained are clauses: the tests before have shown them of these words, and no value carries them.
// A task stands beside the pool, in no struct with it: it is the index of a row, as a slot or a block is.
#![tactic(auto)]

pub mod apart;
mod below;
pub mod handles;
pub mod holds;
pub mod stands;
pub mod tally;
pub mod walk;

pub use below::{all_below, any_below};
