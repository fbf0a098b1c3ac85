// What a call does to a store and answers, as values: specs/ says what each call, step and look sees, does and tells.
#![tactic(auto)]

ghost use Rattle.std.specs.Prelude.{◌≡◌};
ghost use Rattle.acts.specs.Plans.{after, ticked};
ghost use Rattle.acts.specs.StepPlans.{stage_for};

use rulebook::{Damaged, Entry, Reading, Stage, Task};

/// Why a call is refused.
#[derive(Clone, Copy, Debug, PartialEq, Eq)]
pub enum Refusal {
    /// 1: words 0 to 5 do not describe the pool.
    NoPool,
    /// 2: a number outside the pool or the layout was met.
    Damaged,
    /// 3: the sizes or the pool allow no store.
    NoRoom,
    /// 4: there is no such task.
    NoTask,
    /// 5: the task is busy.
    Busy,
    /// 6: the task is idle.
    Idle,
    /// 7: the handle is not live.
    Dead,
    /// 8: there are no such cells.
    NoCell,
    /// 9: no slot is free.
    NoSlot,
    /// 10: no block is free. The task has ended.
    Full { steps: u32 },
    /// 11: a task names the handle.
    InUse,
    /// 12: there is no such block with a live handle, cell or entry.
    Unseen,
}

impl From<Damaged> for Refusal {
    ghost use Rattle.std.specs.Prelude.{◌≡◌};
    ghost use Rattle.acts.specs.declared.Refusal.TheVariants as refusal;

    ghost from_gives = { λ _ r. r ≡ refusal.Damaged };

    fn from(_damaged: Damaged) -> Refusal {
        Refusal::Damaged
    }
}

/// Document 01's number.
impl From<Refusal> for u32 {
    ghost use Rattle.std.specs.Prelude.{◌≡◌};
    ghost use Rattle.rulebook.specs.Answers.{refusal as number_of};
    ghost use Rattle.acts.specs.Told.{refused_as};

    ghost from_gives = { λ r n. n ≡ number_of (refused_as r) };

    fn from(refusal: Refusal) -> u32 {
        match refusal {
            Refusal::NoPool => 1,
            Refusal::Damaged => 2,
            Refusal::NoRoom => 3,
            Refusal::NoTask => 4,
            Refusal::Busy => 5,
            Refusal::Idle => 6,
            Refusal::Dead => 7,
            Refusal::NoCell => 8,
            Refusal::NoSlot => 9,
            Refusal::Full { .. } => 10,
            Refusal::InUse => 11,
            Refusal::Unseen => 12,
        }
    }
}

/// What an accepted call tells.
#[derive(Clone, Copy, Debug, PartialEq, Eq)]
pub enum Told {
    /// Nothing.
    Quiet,
    /// open.
    Opened { blocks: u32 },
    /// A page hands out a cell.
    Handed { cell: u32, value: u32 },
    /// A page hands out its last cell and ends.
    HandedLast { steps: u32, cell: u32, value: u32 },
    /// A get ends.
    Got { steps: u32, cell: u32, value: u32 },
    /// A new or a set ends, with the new handle's public number.
    Made { steps: u32, handle: u32 },
}

/// What an accepted look shows.
#[derive(Clone, Copy, Debug, PartialEq, Eq)]
pub enum Shown {
    /// V, a cell or a log's length.
    Number(u32),
    Entry(Entry),
    Task(Task),
    /// The live handles, and the blocks in use.
    Report { handles: u32, blocks: u32 },
}

/// Who reads a cell by the steps of a get.
#[derive(Clone, Copy, Debug, PartialEq, Eq)]
pub enum Reader {
    Get,
    Copy,
    Page,
}

impl Reader {
    /// The stage at which it makes a reading.
    pub fn stage(self, reading: Reading) -> Stage
        ensures { result ≡ stage_for self reading }
    {
        match self {
            Reader::Get => Stage::Getting(reading),
            Reader::Copy => Stage::Copying(reading),
            Reader::Page => Stage::Paging(reading),
        }
    }
}

/// One more, as 32 bits count.
#[tactic(auto, unfolding(crate::specs::Plans::after))]
pub fn after(number: u32) -> u32
    ensures { result ≡ after number }
{
    number.wrapping_add(1)
}

/// The task with one step more.
#[tactic(auto, unfolding(crate::specs::Plans::ticked))]
pub fn ticked(task: Task) -> Task
    ensures { result ≡ ticked task }
{
    Task {
        steps: after(task.steps),
        ..task
    }
}
