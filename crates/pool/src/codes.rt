// The stage that a word gives, whatever it is: what the check reads of a row before it tests the codes.
// Numbers, and no TryFrom: task_read (layout/specs/Rows.antt) says which stage the check reads of a word that is no code.
ghost use Rattle.std.specs.Prelude.{◌≡◌};
ghost use Rattle.rulebook.specs.Codes.{reading_from, making_from, setting_from, stage_from};

use rulebook::{Reading, Stage};

#[tactic(auto, unfolding(rulebook::specs::Codes::reading_from))]
fn reading_from(number: u32) -> Reading
    ensures { result ≡ reading_from number }
{
    match number {
        3 => Reading::Guess,
        4 => Reading::Version,
        5 => Reading::Length,
        _ => Reading::Probe,
    }
}

// A new's stage.
#[tactic(auto, unfolding(rulebook::specs::Codes::making_from))]
fn making_from(number: u32) -> Stage
    ensures { result ≡ making_from number }
{
    match number {
        1 => Stage::TakeNew,
        _ => Stage::FillNew,
    }
}

// A set's stage.
#[tactic(auto, unfolding(rulebook::specs::Codes::setting_from))]
fn setting_from(number: u32) -> Stage
    ensures { result ≡ setting_from number }
{
    match number {
        1 => Stage::TakeCopy,
        2 => Stage::FillCopy,
        7 => Stage::Exchange,
        8 => Stage::Read,
        9 => Stage::Append,
        10 => Stage::Write,
        11 => Stage::Put,
        _ => Stage::Copying(reading_from(number)),
    }
}

/// The stage whose code it is, where it is one.
#[tactic(auto, unfolding(rulebook::specs::Codes::stage_from, rulebook::specs::Codes::stage_of))]
pub fn stage_from(code: u32) -> Stage
    ensures { result ≡ stage_from code }
{
    let number = code % 12;
    match code / 12 {
        1 => making_from(number),
        2 => Stage::Getting(reading_from(number)),
        3 => setting_from(number),
        4 => Stage::Paging(reading_from(number)),
        _ => Stage::Idle,
    }
}
