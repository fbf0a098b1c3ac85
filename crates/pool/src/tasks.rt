// Task rows: where they lie, their words, what a call sees of them, and the ranges that the check tests.
// Words have the numbers of docs/LAYOUT.md. A row's length is a clause: the row is a part of the lent words, cut in the line that calls.
ghost use Rattle.std.specs.Prelude.{◌≡◌, ◌++◌, ◌+◌, ◌*◌, ◌<◌, ◌≤◌, length, drop};
ghost use Rattle.rulebook.specs.Sizes.{handle_row, header_words, most_handles, most_tasks, task_row};
ghost use Rattle.layout.specs.Rows.{task_words, task_fields, task_with, task_read, stands_in, works_in, task_seen_of};

use super::codes::stage_from;
use super::view::{Pool, PoolMut};
use rulebook::{Damaged, HANDLE_ROW, HEADER_WORDS, Hand, Sizes, Stage, TASK_ROW, Task};
use std::ops::Range;

// One more than a task's steps may be, as the check reads a row.
const MOST_STEPS: u32 = 1000000000;

// Where the row lies, behind so many handle rows.
fn row(handles: u32, task: u32) -> Range<usize>
    requires { (handles ≤ most_handles) × (task < most_tasks) }
    ensures { (result.start ≡ header_words + handle_row * handles + task_row * task) × (result.end ≡ result.start + task_row) × (result.end ≤ 1552) }
{
    let start = (HEADER_WORDS + HANDLE_ROW * handles + TASK_ROW * task) as usize;
    start..start + TASK_ROW as usize
}

// Writes the words that a task has; the others of the row stay as they are.
#[tactic(auto, using(layout::specs::Ways::rowing))]
#[inline(always)]
fn write(row: &mut [u32], task: Task)
    requires { length row.old ≡ task_row }
    ensures { row.new ≡ task_words task ++ drop task_fields row.old }
{
    row[0] = u32::from(task.stage);
    row[1] = task.slot;
    row[2] = task.block;
    row[3] = task.number;
    row[4] = task.cell;
    row[5] = task.value;
    row[6] = task.until;
    row[7] = task.fresh;
    row[8] = task.target;
    row[9] = task.hand.cell;
    row[10] = task.hand.guess;
    row[11] = task.hand.lo;
    row[12] = task.hand.hi;
    row[13] = u32::from(task.hand.found);
    row[14] = task.hand.candidate;
    row[15] = task.hand.version;
    row[16] = task.steps;
}

// The task of a row, but for its stage.
#[inline(always)]
fn read_at(row: &[u32], stage: Stage) -> Task
    requires { length row.now ≡ task_row }
    ensures { result ≡ task_with stage row.now }
{
    Task {
        stage,
        slot: row[1],
        block: row[2],
        number: row[3],
        cell: row[4],
        value: row[5],
        until: row[6],
        fresh: row[7],
        target: row[8],
        hand: Hand {
            cell: row[9],
            guess: row[10],
            lo: row[11],
            hi: row[12],
            found: row[13] != 0,
            candidate: row[14],
            version: row[15],
        },
        steps: row[16],
    }
}

// The task of a row that has a stage's code.
#[tactic(auto, unfolding(layout::specs::Rows::task_seen_of, layout::specs::Rows::task_read, rulebook::specs::Codes::stage_coded))]
#[inline(always)]
fn read(row: &[u32]) -> Result<Task, Damaged>
    requires { length row.now ≡ task_row }
    ensures { result ≡ task_seen_of row.now }
{
    let stage = Stage::try_from(row[0])?;
    Ok(read_at(row, stage))
}

// The numbers of the handle that it names are in their ranges.
#[tactic(auto, unfolding(layout::specs::Rows::stands_in))]
fn stands(task: Task, sizes: Sizes) -> bool
    ensures { result ≡ stands_in sizes task }
{
    task.slot < sizes.h && task.block < sizes.b && task.number <= sizes.n
}

// The numbers of what it does are in their ranges.
#[tactic(auto, unfolding(layout::specs::Rows::works_in))]
fn works(task: Task, sizes: Sizes) -> bool
    ensures { result ≡ works_in sizes task }
{
    task.cell < sizes.n
        && task.until <= sizes.n
        && task.fresh < sizes.h
        && task.target < sizes.b
        && task.hand.cell < sizes.n
        && task.steps < MOST_STEPS
}

impl Pool<'_> {
    ghost use Rattle.std.specs.Prelude.{◌≡◌, ◌<◌, get_or};
    ghost use Rattle.layout.specs.Places.{task_part};
    ghost use Rattle.layout.specs.Rows.{task_read, task_with};
    ghost use Rattle.layout.specs.Pool.{task_in, task_seen};

    /// The task as a call sees it.
    #[tactic(auto, unfolding(layout::specs::Pool::task_seen, layout::specs::Places::task_part, layout::specs::Parts::part, layout::specs::Parts::splice), using(layout::specs::Lends::lends))]
    #[inline(always)]
    pub fn task(self, task: u32) -> Result<Task, Damaged>
        requires { task < self.sizes.t }
        ensures { result ≡ task_seen self.entry.words.now self.entry.sizes task }
    {
        read(&self.words[row(self.sizes.h, task)])
    }

    /// The task as it lies, but for its stage.
    #[tactic(auto, unfolding(layout::specs::Places::task_part, layout::specs::Parts::part, layout::specs::Parts::splice), using(layout::specs::Lends::lends))]
    pub fn task_at(self, task: u32, stage: Stage) -> Task
        requires { task < self.sizes.t }
        ensures { result ≡ task_with stage (task_part self.entry.words.now self.entry.sizes task) }
    {
        read_at(&self.words[row(self.sizes.h, task)], stage)
    }

    /// The code of the task's stage.
    #[tactic(auto, unfolding(layout::specs::Places::task_part, layout::specs::Parts::part, layout::specs::Parts::splice), using(layout::specs::Lends::lends))]
    pub fn code(self, task: u32) -> u32
        requires { task < self.sizes.t }
        ensures { result ≡ get_or (task_part self.entry.words.now self.entry.sizes task) 0 0 }
    {
        self.words[row(self.sizes.h, task).start]
    }

    /// The task as it lies, whatever its ranges and its code.
    #[tactic(auto, unfolding(layout::specs::Rows::task_read))]
    pub fn raw_task(self, task: u32) -> Task
        requires { task < self.sizes.t }
        ensures { result ≡ task_read (task_part self.entry.words.now self.entry.sizes task) }
    {
        self.task_at(task, stage_from(self.code(task)))
    }

    /// The task where each of its numbers is in its range.
    #[tactic(auto, unfolding(layout::specs::Pool::task_in, layout::specs::Pool::task_seen, layout::specs::Rows::task_row_of, layout::specs::Rows::task_fits, layout::specs::Rows::task_seen_of, layout::specs::Places::task_part, layout::specs::Parts::part, layout::specs::Parts::splice), using(layout::specs::Lends::lends))]
    pub fn ranged_task(self, task: u32) -> Result<Task, Damaged>
        requires { task < self.sizes.t }
        ensures { result ≡ task_in self.entry.words.now self.entry.sizes task }
    {
        let found = self.task(task)?;
        if stands(found, self.sizes) && works(found, self.sizes) {
            Ok(found)
        } else {
            Err(Damaged)
        }
    }
}

impl PoolMut<'_> {
    ghost use Rattle.std.specs.Prelude.{◌≡◌, ◌<◌};
    ghost use Rattle.layout.specs.Pool.{put_task};
    ghost use Rattle.pool.specs.Loans.{IsSameLoan};

    /// Writes the task's row.
    #[tactic(auto, using(layout::specs::Lends::lends), unfolding(layout::specs::Parts::part, layout::specs::Parts::splice))]
    #[inline(always)]
    pub fn put_task(&mut self, task: u32, value: Task)
        requires { task < self.old.sizes.t }
        ensures words { self.new.words.now ≡ put_task self.old.words.now self.old.sizes task value }
        ensures same { IsSameLoan self.old self.new }
    {
        write(&mut self.words[row(self.sizes.h, task)], value);
    }
}
