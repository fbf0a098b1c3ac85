// Rule 7: what each task at its stage has done.
ghost use Rattle.std.specs.Prelude.{◌≡◌, ◌<◌};
ghost use Rattle.theorems.specs.Terms.{all_to};
ghost use Rattle.survey.specs.Rules.{shown};
ghost use Rattle.survey.specs.Broken.{facts_at};
ghost use Rattle.survey.specs.Holds.{unspent};
ghost use Rattle.audit.specs.Facts.{Known, Ranged, Stands, done_at};
ghost use Rattle.rulebook.specs.declared.Stage.TheVariants as stage;

use super::gets::gets_in;
use super::logs_done::{fills_to, to_append, to_write};
use pool::Pool;
use rulebook::{LAST_SERIAL, Stage, Task};
use survey::all_below;

// The slot that the task has reserved can carry a handle more.
#[tactic(auto, unfolding(rulebook::specs::Sizes::last_serial), using(survey::proofs::Ways::slot_as))]
fn is_unspent(pool: Pool<'_>, task: Task) -> bool
    requires { Ranged pool.sizes pool.words.now task }
    ensures { result ≡ unspent (shown pool.entry.sizes pool.entry.words.now) task }
{
    pool.raw_slot(task.fresh).serial < LAST_SERIAL
}

// A set by a copy: V is above the version that it copies.
#[tactic(auto, unfolding(crate::specs::Facts::done_at), using(crate::proofs::Knowing::facts))]
fn copy_begun(pool: Pool<'_>, task: Task) -> bool
    requires { Ranged pool.sizes pool.words.now task }
    ensures { result ≡ done_at pool.entry.sizes pool.entry.words.now stage.TakeCopy task }
{
    is_unspent(pool, task) && task.number < pool.raw_version(task.block)
}

// It has filled its block up to the cell in hand.
#[tactic(auto, unfolding(crate::specs::Facts::done_at), using(crate::proofs::Knowing::facts))]
fn copy_filled(pool: Pool<'_>, task: Task) -> bool
    requires { Ranged pool.sizes pool.words.now task }
    ensures { result ≡ done_at pool.entry.sizes pool.entry.words.now stage.FillCopy task }
{
    copy_begun(pool, task) && fills_to(pool, task.hand.cell, task)
}

#[tactic(auto, unfolding(crate::specs::Facts::done_at), using(crate::proofs::Knowing::facts))]
fn stage_done(pool: Pool<'_>, task: Task) -> bool
    requires { Stands pool.sizes pool.words.now task.stage task }
    ensures { result ≡ done_at pool.entry.sizes pool.entry.words.now task.stage task }
{
    match task.stage {
        Stage::Idle => true,
        Stage::TakeNew | Stage::Exchange => is_unspent(pool, task),
        Stage::FillNew => is_unspent(pool, task) && fills_to(pool, task.hand.cell, task),
        Stage::Getting(reading) => gets_in(pool, task, reading),
        Stage::Read | Stage::Append => is_unspent(pool, task) && to_append(pool, task),
        Stage::Write => is_unspent(pool, task) && to_write(pool, task),
        Stage::TakeCopy => copy_begun(pool, task),
        Stage::Copying(reading) => copy_filled(pool, task) && gets_in(pool, task, reading),
        Stage::FillCopy => copy_filled(pool, task),
        Stage::Put => is_unspent(pool, task) && fills_to(pool, pool.sizes.n, task),
        Stage::Paging(reading) => gets_in(pool, task, reading) && task.hand.cell < task.until,
    }
}

#[tactic(auto, unfolding(survey::specs::Broken::facts_at, crate::specs::Facts::done_at), using(crate::proofs::Knowing::facts))]
fn facts_at(pool: Pool<'_>, index: u32) -> bool
    requires known { Known pool.sizes pool.words.now }
    requires there { index < pool.sizes.t }
    ensures { result ≡ facts_at pool.entry.sizes pool.entry.words.now index }
{
    stage_done(pool, pool.raw_task(index))
}

// Where rules 3 and 6 hold, and every row is in its ranges.
pub fn tasks_done(pool: Pool<'_>) -> bool
    requires { Known pool.sizes pool.words.now }
    ensures { result ≡ all_to (facts_at pool.entry.sizes pool.entry.words.now) pool.entry.sizes.t }
{
    all_below(pool.sizes.t, move |index| facts_at(pool, index))
}
