// Rule 7: what a task that reads has in hand.
ghost use Rattle.std.specs.Prelude.{◌≡◌, ◌<◌, length};
ghost use Rattle.layout.specs.Places.{block_part};
ghost use Rattle.survey.specs.Logs.{Walkable};
ghost use Rattle.survey.specs.Rules.{shown};
ghost use Rattle.survey.specs.Holds.{gets_in, seeks_in};
ghost use Rattle.audit.specs.Gets.{Log, candidate_in, log_in};

use super::logs::all_older;
use pool::Pool;
use rulebook::{Reading, Task};

// The task's candidate has the version of the entry at hi, in a log of so many entries.
#[tactic(auto, unfolding(crate::specs::Gets::candidate_in), using(crate::proofs::Seeking::gets))]
fn candidate_holds(pool: Pool<'_>, task: Task, entries: u32) -> bool
    requires log { Log pool.sizes pool.words.now task.block task.hand.cell }
    requires all { entries ≡ length (log_in pool.sizes pool.words.now task.block task.hand.cell) }
    ensures { result ≡ candidate_in (log_in pool.entry.sizes pool.entry.words.now task.block task.hand.cell) task.number task.hand }
{
    let hand = task.hand;
    hand.hi < entries
        && hand.version == pool.raw_stamp(task.block, hand.cell, hand.hi)
        && task.number <= hand.version
}

// The task's search: its bounds lie in the log, and what it has passed by is older.
#[tactic(auto, unfolding(survey::specs::Holds::seeks_in, crate::specs::Gets::candidate_in, crate::specs::Gets::older_in), using(crate::proofs::Seeking::gets))]
fn seeks_in(pool: Pool<'_>, task: Task) -> bool
    requires { Log pool.sizes pool.words.now task.block task.hand.cell }
    ensures { result ≡ seeks_in (log_in pool.entry.sizes pool.entry.words.now task.block task.hand.cell) task.number task.hand }
{
    let hand = task.hand;
    let entries = pool.raw_length(task.block, hand.cell);
    hand.lo < hand.hi
        && hand.hi <= entries
        && all_older(pool, task.block, hand.cell, task.number, hand.lo)
        && (!hand.found || candidate_holds(pool, task, entries))
}

// The get that the task has in hand.
#[tactic(auto, unfolding(survey::specs::Holds::gets_in, crate::specs::Gets::log_in), using(crate::proofs::Seeking::gets))]
pub fn gets_in(pool: Pool<'_>, task: Task, reading: Reading) -> bool
    requires block { task.block < pool.sizes.b }
    requires logs { Walkable pool.sizes.n (block_part pool.words.now pool.sizes task.block) }
    requires cell { task.hand.cell < pool.sizes.n }
    ensures { result ≡ gets_in (shown pool.entry.sizes pool.entry.words.now) reading task }
{
    match reading {
        Reading::Guess => true,
        Reading::Version | Reading::Length => !task.hand.found,
        Reading::Probe => seeks_in(pool, task),
    }
}
