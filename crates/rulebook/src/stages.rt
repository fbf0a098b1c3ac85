// What a stage is about, and the numbers that an answer tells of it.
ghost use Rattle.std.specs.Prelude.{◌≡◌};
ghost use Rattle.rulebook.specs.State.{busy, names, reserves, writes, fills};
ghost use Rattle.rulebook.specs.Answers.{operation, reading_code, stage_code};

use super::{Reading, Stage};

impl Reading {
    /// The number of the stage at which it is made.
    pub fn number(self) -> u32
        ensures { result ≡ reading_code self }
    {
        match self {
            Reading::Guess => 3,
            Reading::Version => 4,
            Reading::Length => 5,
            Reading::Probe => 6,
        }
    }
}

impl Stage {
    /// The task is not idle.
    pub fn is_busy(self) -> bool
        ensures { result ≡ busy self }
    {
        !matches!(self, Stage::Idle)
    }

    /// The task names a handle.
    pub fn names_handle(self) -> bool
        ensures { result ≡ names self }
    {
        !matches!(self, Stage::Idle | Stage::TakeNew | Stage::FillNew)
    }

    /// The task has reserved a slot.
    pub fn reserves_slot(self) -> bool
        ensures { result ≡ reserves self }
    {
        !matches!(self, Stage::Idle | Stage::Getting(_) | Stage::Paging(_))
    }

    /// The task is a set in place, past its exchange.
    pub fn writes_in_place(self) -> bool
        ensures { result ≡ writes self }
    {
        matches!(self, Stage::Read | Stage::Append | Stage::Write)
    }

    /// The task is filling a block.
    pub fn fills_block(self) -> bool
        ensures { result ≡ fills self }
    {
        matches!(
            self,
            Stage::FillNew | Stage::Copying(_) | Stage::FillCopy | Stage::Put
        )
    }

    /// 0 idle, 1 new, 2 get, 3 set, 4 page.
    pub fn operation(self) -> u32
        ensures { result ≡ operation self }
    {
        match self {
            Stage::Idle => 0,
            Stage::TakeNew | Stage::FillNew => 1,
            Stage::Getting(_) => 2,
            Stage::Paging(_) => 4,
            _ => 3,
        }
    }

    /// What the next step does.
    pub fn number(self) -> u32
        ensures { result ≡ stage_code self }
    {
        match self {
            Stage::Idle => 0,
            Stage::TakeNew | Stage::TakeCopy => 1,
            Stage::FillNew | Stage::FillCopy => 2,
            Stage::Getting(reading) | Stage::Copying(reading) | Stage::Paging(reading) => {
                reading.number()
            }
            Stage::Exchange => 7,
            Stage::Read => 8,
            Stage::Append => 9,
            Stage::Write => 10,
            Stage::Put => 11,
        }
    }
}
