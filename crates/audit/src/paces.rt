// Rule 7: each task's code, its ranges, and its steps by its stage.
ghost use Rattle.std.specs.Prelude.{◌≡◌, ◌*◌, ◌+◌, ◌-◌, ◌<◌, ◌≤◌, leb};
ghost use Rattle.layout.specs.Rows.{Ranged, most_steps};
ghost use Rattle.rulebook.specs.Sizes.{most_cells};
ghost use Rattle.rules.specs.Paced.{copy_steps};
ghost use Rattle.theorems.specs.Prices.Digits.{left_of};
ghost use Rattle.theorems.specs.Terms.{all_to, digits};
ghost use Rattle.survey.specs.Broken.{task_sound};
ghost use Rattle.audit.specs.Paces.{pace_at};

use pool::Pool;
use rulebook::{Hand, Reading, Sizes, Stage, Task};
use survey::all_below;

// ---- a get in hand

// How many binary digits the number has.
#[tactic(auto, using(crate::proofs::Pacing::digits_as))]
fn digits_of(number: u32) -> u32
    ensures { (result ≡ digits number) × (result ≤ 32) }
{
    32 - number.leading_zeros()
}

// The most steps that the get may still take. Where its bounds have passed each other, no entry is left to search.
fn left_of(cells: u32, reading: Reading, hand: Hand) -> u32
    ensures { (result ≡ left_of cells reading hand) × (result ≤ 35) }
{
    match reading {
        Reading::Guess => 3 + digits_of(cells),
        Reading::Version => 2 + digits_of(cells),
        Reading::Length => 1 + digits_of(cells),
        Reading::Probe => digits_of(hand.hi.saturating_sub(hand.lo)),
    }
}

// The task's steps, with those that its get may still take, are at most so many.
fn ends_within(cells: u32, reading: Reading, task: Task, most: u32) -> bool
    requires { task.steps < most_steps }
    ensures { result ≡ leb (task.steps + left_of cells reading task.hand) most }
{
    task.steps + left_of(cells, reading, task.hand) <= most
}

// ---- the most steps

// Of a get.
#[tactic(auto, using(crate::proofs::Pacing::mosts))]
fn get_most(cells: u32) -> u32
    requires { cells ≤ most_cells }
    ensures { (result ≡ 3 + digits cells) × (result ≤ 16) }
{
    3 + digits_of(cells)
}

// Of a copy of so many cells.
#[tactic(auto, using(crate::proofs::Pacing::mosts))]
fn copy_most(cells: u32, copied: u32) -> u32
    requires { (cells ≤ most_cells) × (copied ≤ cells) }
    ensures { (result ≡ copy_steps cells copied) × (result ≤ 69634) }
{
    2 + copied * (4 + digits_of(cells))
}

// Of the copy of one more.
fn next_most(cells: u32, copied: u32) -> u32
    requires { (cells ≤ most_cells) × (copied ≤ cells) }
    ensures { result ≡ copy_steps cells copied + (3 + digits cells) }
{
    copy_most(cells, copied) + get_most(cells)
}

// Of a page from one cell to another.
#[tactic(auto, using(crate::proofs::Pacing::mosts))]
fn page_most(cells: u32, from: u32, to: u32) -> u32
    requires { (cells ≤ most_cells) × (from ≤ to) × (to < cells) }
    ensures { result ≡ (to - from + 1) * (3 + digits cells) }
{
    (to - from + 1) * get_most(cells)
}

// ---- every task

// The steps are those of the stage, of a task in its ranges.
#[tactic(auto, unfolding(crate::specs::Paces::pace_at))]
fn pace_at(sizes: Sizes, task: Task) -> bool
    requires { (sizes.n ≤ most_cells) × Ranged sizes task }
    ensures { result ≡ pace_at sizes.n task.stage task }
{
    let cells = sizes.n;
    let reached = task.hand.cell;
    match task.stage {
        Stage::Idle => task == Task::idle(),
        Stage::TakeNew | Stage::Exchange => task.steps == 0,
        Stage::Read | Stage::TakeCopy => task.steps == 1,
        Stage::Append => task.steps == 2,
        Stage::Write => task.steps == 3,
        Stage::FillNew => task.steps == reached + 1,
        Stage::Getting(reading) => ends_within(cells, reading, task, get_most(cells)),
        Stage::Copying(reading) => ends_within(cells, reading, task, next_most(cells, reached)),
        Stage::FillCopy => task.steps <= next_most(cells, reached),
        Stage::Put => task.steps <= copy_most(cells, cells),
        Stage::Paging(reading) => {
            task.cell <= reached
                && ends_within(cells, reading, task, page_most(cells, task.cell, reached))
        }
    }
}

// A row that can be read has its code and is in its ranges; a row in its ranges and at its pace can be read.
#[tactic(auto, using(crate::proofs::Pacing::rows))]
fn task_sound(pool: Pool<'_>, index: u32) -> bool
    requires { index < pool.sizes.t }
    ensures { result ≡ task_sound pool.entry.sizes pool.entry.words.now index }
{
    pool.ranged_task(index)
        .is_ok_and(move |task| pace_at(pool.sizes, task))
}

pub fn tasks_sound(pool: Pool<'_>) -> bool
    ensures { result ≡ all_to (task_sound pool.entry.sizes pool.entry.words.now) pool.entry.sizes.t }
{
    all_below(pool.sizes.t, move |index| task_sound(pool, index))
}
