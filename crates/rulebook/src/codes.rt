// The numbers that stand for a stage and a status in a row, and back: docs/LAYOUT.md lists them.
ghost use Rattle.std.specs.Prelude.{◌≡◌, Result};
ghost use Rattle.rulebook.specs.Codes.{code_of, stage_coded, status_code, status_coded};

use super::{Damaged, Reading, Stage, Status};

/// 12 times the operation, and the stage.
impl From<Stage> for u32 {
    ghost from_gives = { λ g c. c ≡ code_of g };

    #[tactic(auto, unfolding(crate::specs::Codes::code_of))]
    fn from(stage: Stage) -> u32 {
        12 * stage.operation() + stage.number()
    }
}

impl TryFrom<u32> for Stage {
    type Error = Damaged;

    ghost try_from_gives = { λ c r. r ≡ stage_coded c };

    #[tactic(auto, unfolding(crate::specs::Codes::stage_coded, crate::specs::Codes::stage_from, crate::specs::Codes::is_code, crate::specs::Codes::stage_of, crate::specs::Codes::setting_from, crate::specs::Codes::making_from, crate::specs::Codes::reading_from, crate::specs::Codes::code_of))]
    #[inline(always)]
    fn try_from(code: u32) -> Result<Stage, Damaged> {
        match code {
            0 => Ok(Stage::Idle),
            13 => Ok(Stage::TakeNew),
            14 => Ok(Stage::FillNew),
            27 => Ok(Stage::Getting(Reading::Guess)),
            28 => Ok(Stage::Getting(Reading::Version)),
            29 => Ok(Stage::Getting(Reading::Length)),
            30 => Ok(Stage::Getting(Reading::Probe)),
            37 => Ok(Stage::TakeCopy),
            38 => Ok(Stage::FillCopy),
            39 => Ok(Stage::Copying(Reading::Guess)),
            40 => Ok(Stage::Copying(Reading::Version)),
            41 => Ok(Stage::Copying(Reading::Length)),
            42 => Ok(Stage::Copying(Reading::Probe)),
            43 => Ok(Stage::Exchange),
            44 => Ok(Stage::Read),
            45 => Ok(Stage::Append),
            46 => Ok(Stage::Write),
            47 => Ok(Stage::Put),
            51 => Ok(Stage::Paging(Reading::Guess)),
            52 => Ok(Stage::Paging(Reading::Version)),
            53 => Ok(Stage::Paging(Reading::Length)),
            54 => Ok(Stage::Paging(Reading::Probe)),
            _ => Err(Damaged),
        }
    }
}

impl From<Status> for u32 {
    ghost from_gives = { λ x c. c ≡ status_code x };

    fn from(status: Status) -> u32 {
        match status {
            Status::Free => 0,
            Status::Reserved => 1,
            Status::Live => 2,
        }
    }
}

impl TryFrom<u32> for Status {
    type Error = Damaged;

    ghost try_from_gives = { λ c r. r ≡ status_coded c };

    #[tactic(auto, unfolding(crate::specs::Codes::status_coded, crate::specs::Codes::status_from))]
    fn try_from(code: u32) -> Result<Status, Damaged> {
        match code {
            0 => Ok(Status::Free),
            1 => Ok(Status::Reserved),
            2 => Ok(Status::Live),
            _ => Err(Damaged),
        }
    }
}
