// The work of tasks on a lent pool: a step, stage by stage, on the row of its task and one block.
#![tactic(auto)]

mod news;
mod readings;
mod row;
mod sets;
mod steps;

pub use steps::step;
