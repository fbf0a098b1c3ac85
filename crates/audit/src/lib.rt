// The whole-store check: rule 7, and all seven rules in their order.
// A task stands beside the pool, in no struct with it: it is the index of a row, as a slot or a block is.
#![tactic(auto)]

mod facts;
mod fillers;
mod gets;
mod logs;
mod logs_done;
mod order;
mod paces;
mod seven;
mod slots;
mod writers;

pub use order::{Rule, check};
