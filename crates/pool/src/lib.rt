// The lent words of a store: what the header says, where rows and blocks lie, and what writes them.
#![tactic(auto)]

mod blocks;
mod codes;
mod headers;
mod opening;
mod raw;
mod rows;
mod searches;
mod slots;
mod tasks;
mod view;

pub use headers::header_of;
pub use opening::open;
pub use view::{Pool, PoolMut};

// The mark in word 0, and the number in word 5.
const MARK: u32 = 0x00494B56;

const FORM: u32 = 1;
