// Rule 7: what a set in place and a task that fills have done.
ghost use Rattle.std.specs.Prelude.{◌≡◌, ◌<◌, ◌≤◌};
ghost use Rattle.rulebook.specs.State.{block_at};
ghost use Rattle.theorems.specs.Terms.{all_to};
ghost use Rattle.layout.specs.Places.{block_part};
ghost use Rattle.survey.specs.Logs.{Walkable};
ghost use Rattle.survey.specs.Rules.{shown};
ghost use Rattle.survey.specs.Holds.{all_below, fills_to, to_append, to_write};
ghost use Rattle.survey.specs.Tally.{Counts};
ghost use Rattle.audit.specs.LogsDone.{cell_below, empty_at, other_below};

use super::logs::all_older;
use pool::Pool;
use rulebook::Task;
use survey::all_below;
use survey::tally::entries_of;

// ---- a block that is filled

// The cell's log is empty.
#[tactic(auto, unfolding(crate::specs::LogsDone::empty_at), using(crate::proofs::Logging::log_long))]
fn is_empty(pool: Pool<'_>, block: u32, cell: u32) -> bool
    requires block { block < pool.sizes.b }
    requires cell { cell < pool.sizes.n }
    ensures { result ≡ empty_at pool.entry.sizes pool.entry.words.now block cell }
{
    pool.raw_length(block, cell) == 0
}

// The logs of so many cells are.
fn all_empty(pool: Pool<'_>, block: u32, cells: u32) -> bool
    requires block { block < pool.sizes.b }
    requires cells { cells ≤ pool.sizes.n }
    ensures { result ≡ all_to (empty_at pool.entry.sizes pool.entry.words.now block) cells }
{
    all_below(cells, move |cell| is_empty(pool, block, cell))
}

// The task has filled so many cells of its block.
#[tactic(auto, unfolding(survey::specs::Holds::fills_to, crate::specs::LogsDone::empty_at, crate::specs::Gets::log_in), using(crate::proofs::Logging::dones))]
pub fn fills_to(pool: Pool<'_>, cells: u32, task: Task) -> bool
    requires block { task.target < pool.sizes.b }
    requires cells { cells ≤ pool.sizes.n }
    ensures { result ≡ fills_to (shown pool.entry.sizes pool.entry.words.now) cells task }
{
    pool.raw_version(task.target) == 0 && all_empty(pool, task.target, cells)
}

// ---- the versions in a block that can be read

// Those in the cell's log are below the number.
#[tactic(auto, unfolding(crate::specs::LogsDone::cell_below), using(crate::proofs::Logging::log_long))]
fn cell_below(pool: Pool<'_>, block: u32, number: u32, cell: u32) -> bool
    requires counts { Counts pool.sizes pool.words.now block }
    requires cell { cell < pool.sizes.n }
    ensures { result ≡ cell_below pool.entry.sizes pool.entry.words.now block number cell }
{
    all_older(pool, block, cell, number, pool.raw_length(block, cell))
}

// Those in every log are below the number.
#[tactic(auto, using(crate::proofs::Logging::dones))]
fn block_below(pool: Pool<'_>, block: u32, number: u32) -> bool
    requires { Counts pool.sizes pool.words.now block }
    ensures { result ≡ all_below (block_at (shown pool.entry.sizes pool.entry.words.now) block) number }
{
    all_below(
        pool.sizes.n,
        move |cell| cell_below(pool, block, number, cell),
    )
}

// Those in the cell's log are, or it is the cell that is set.
#[tactic(auto, unfolding(crate::specs::LogsDone::other_below))]
fn other_below(pool: Pool<'_>, block: u32, set: u32, number: u32, cell: u32) -> bool
    requires counts { Counts pool.sizes pool.words.now block }
    requires cell { cell < pool.sizes.n }
    ensures { result ≡ other_below pool.entry.sizes pool.entry.words.now block set number cell }
{
    cell == set || cell_below(pool, block, number, cell)
}

fn others_below(pool: Pool<'_>, block: u32, set: u32, number: u32) -> bool
    requires { Counts pool.sizes pool.words.now block }
    ensures { result ≡ all_to (other_below pool.entry.sizes pool.entry.words.now block set number) pool.entry.sizes.n }
{
    all_below(
        pool.sizes.n,
        move |cell| other_below(pool, block, set, number, cell),
    )
}

// ---- a set in place

// Before its append: every entry is older, and there are few.
#[tactic(auto, unfolding(survey::specs::Holds::to_append), using(crate::proofs::Logging::dones))]
pub fn to_append(pool: Pool<'_>, task: Task) -> bool
    requires block { task.block < pool.sizes.b }
    requires logs { Walkable pool.sizes.n (block_part pool.words.now pool.sizes task.block) }
    ensures { result ≡ to_append (shown pool.entry.sizes pool.entry.words.now) task }
{
    task.number < pool.sizes.n
        && block_below(pool, task.block, task.number)
        && entries_of(pool, task.block) <= task.number
}

// After it: of the logs only that of its cell has an entry that is not.
#[tactic(auto, using(crate::proofs::Logging::dones))]
pub fn to_write(pool: Pool<'_>, task: Task) -> bool
    requires block { task.block < pool.sizes.b }
    requires logs { Walkable pool.sizes.n (block_part pool.words.now pool.sizes task.block) }
    requires cell { task.cell < pool.sizes.n }
    ensures { result ≡ to_write (shown pool.entry.sizes pool.entry.words.now) task }
{
    task.number < pool.sizes.n
        && others_below(pool, task.block, task.cell, task.number)
        && !cell_below(pool, task.block, task.number, task.cell)
}
