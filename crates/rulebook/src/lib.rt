// The types that the machine's definitions and the store's code share, in document 01's words.
#![tactic(auto)]

mod codes;
mod hands;
mod limits;
mod slots;
mod stages;
mod tasks;

pub use limits::{
    HANDLE_ROW, HEADER_WORDS, LAST_SERIAL, MOST_BLOCKS, MOST_CELLS, MOST_HANDLES, MOST_TASKS,
    SLOTS, TASK_ROW, block_words, control_words,
};

// N, H, T, B: how many cells, handles, tasks and blocks a store has. The fields keep the rule book's letters.
#[derive(Clone, Copy, Debug, PartialEq, Eq)]
pub struct Sizes {
    pub n: u32,
    pub h: u32,
    pub t: u32,
    pub b: u32,
}

// One entry of a cell's log: a version, and the cell's old value in it.
#[derive(Clone, Copy, Debug, PartialEq, Eq)]
pub struct Entry {
    pub version: u32,
    pub old: u32,
}

#[derive(Clone, Copy, Debug, PartialEq, Eq)]
pub enum Status {
    Free,
    Reserved,
    Live,
}

// A slot: how many handles it has carried, and, while it is live, where its handle stands: the block and the handle's own number L.
#[derive(Clone, Copy, Debug, PartialEq, Eq)]
pub struct Slot {
    pub serial: u32,
    pub status: Status,
    pub block: u32,
    pub number: u32,
}

// The steps of a get: each reads the cell (the guess), V, the log's length, or one entry.
#[derive(Clone, Copy, Debug, PartialEq, Eq)]
pub enum Reading {
    Guess,
    Version,
    Length,
    Probe,
}

// What a task's next step does: operation and stage in one, exactly the pairs that occur.
#[derive(Clone, Copy, Debug, PartialEq, Eq)]
pub enum Stage {
    Idle,
    // new
    TakeNew,
    FillNew,
    // get
    Getting(Reading),
    // set: in place, then by a copy
    Exchange,
    Read,
    Append,
    Write,
    TakeCopy,
    Copying(Reading),
    FillCopy,
    Put,
    // page
    Paging(Reading),
}

// The get in hand: its cell, the guess, the bounds of its search, whether there is a candidate, its value and its version.
// A flag and no Option of the two: words 14 and 15 of a task's row are written back as they were read, behind a 0 in word 13 too.
#[derive(Clone, Copy, Debug, PartialEq, Eq)]
pub struct Hand {
    pub cell: u32,
    pub guess: u32,
    pub lo: u32,
    pub hi: u32,
    pub found: bool,
    pub candidate: u32,
    pub version: u32,
}

// A get after a step: it goes on with another reading, or it has its answer.
#[derive(Clone, Copy, Debug, PartialEq, Eq)]
pub enum Progress {
    Going(Reading, Hand),
    Settled(Hand),
}

// A task. Of the handle that it names: the slot, and the block and number that it took at its start.
// cell, value: a set's i and v. until: the cell after a page's last. fresh: the slot that it reserved. target: the block that it fills.
#[derive(Clone, Copy, Debug, PartialEq, Eq)]
pub struct Task {
    pub stage: Stage,
    pub slot: u32,
    pub block: u32,
    pub number: u32,
    pub cell: u32,
    pub value: u32,
    pub until: u32,
    pub fresh: u32,
    pub target: u32,
    pub hand: Hand,
    pub steps: u32,
}

// What a call answers. Specs/Answers.antt gives document 01's refusal number and answer words for every case.
// An enum and no Result, with a refusal as its number: one definition gives the number of every case, and the promises speak of it.
#[derive(Clone, Copy, Debug, PartialEq, Eq)]
pub enum Reply {
    // a refusal but 10: its number
    Refused(u32),
    // 10, with the task's steps
    Full(u32),
    // accepted, with nothing to tell
    Quiet,
    // open: B
    Opened(u32),
    // a page hands out a cell: cell, value
    Handed(u32, u32),
    // a page hands out its last cell and ends: steps, cell, value
    HandedLast(u32, u32, u32),
    // a get ends: steps, cell, value
    Got(u32, u32, u32),
    // a new or a set ends: steps, the new handle's public number
    Made(u32, u32),
    // a look at V, a cell or a log's length
    Shown(u32),
    ShownEntry(Entry),
    ShownTask(Task),
    // live handles, blocks in use
    Reported(u32, u32),
}

// A word says what no store has: it is outside the pool or the layout.
#[derive(Clone, Copy, Debug, PartialEq, Eq)]
pub struct Damaged;
