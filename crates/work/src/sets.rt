// One step each: a set, in place or by a copy.
ghost use Rattle.std.specs.Prelude.{◌<◌, ◌≡◌, is_ok};
ghost use Rattle.acts.specs.StepPlans.{after_exchange};
ghost use Rattle.acts.specs.Told.{reply_of};
ghost use Rattle.acts.specs.Touch as touch;
ghost use Rattle.layout.specs.Pool.{touched_in};
ghost use Rattle.work.specs.Stepped.{step_at};
ghost use Rattle.pool.specs.Loans.{IsSameLoan};

use super::row::{counted, finish, go_on, next_serial};
use acts::{Refusal, Told, after};
use pool::PoolMut;
use rulebook::{Damaged, Entry, Hand, Reading, Stage, Task};

// A first set with L < N goes on in place; every other set copies.
fn first_set(row: Task, cells: u32) -> Task
    ensures { result ≡ after_exchange cells row }
{
    if row.number < cells {
        row.moved(Stage::Read, row.hand)
    } else {
        row.moved(Stage::TakeCopy, Hand::of(0))
    }
}

/// The exchange: if V = L, V becomes L + 1; otherwise nothing, and the set copies.
#[tactic(auto, unfolding(crate::specs::Stepped::step_at, acts::specs::StepPlans::plan_at, layout::specs::Pool::sight, acts::specs::StepPlans::exchanges_on), using(crate::proofs::Doing::doing))]
pub fn step_exchange(pool: &mut PoolMut<'_>, task: u32) -> Result<Told, Refusal>
    requires { task < pool.old.sizes.t }
    ensures words { (pool.new.words.now, reply_of result) ≡ step_at pool.old.words.now pool.old.sizes task Stage.Exchange }
    ensures same { IsSameLoan pool.old pool.new }
{
    let row = counted(pool, task);
    if !pool.exchange(row.block, row.number)? {
        return Ok(go_on(pool, task, row.moved(Stage::TakeCopy, Hand::of(0))));
    }
    Ok(go_on(pool, task, first_set(row, pool.sizes.n)))
}

/// Read the cell; the old value is kept as the guess.
#[tactic(auto, unfolding(crate::specs::Stepped::step_at, acts::specs::StepPlans::plan_at, layout::specs::Pool::sight, acts::specs::StepPlans::reads_old), using(crate::proofs::Doing::doing))]
pub fn step_read(pool: &mut PoolMut<'_>, task: u32) -> Result<Told, Refusal>
    requires { task < pool.old.sizes.t }
    ensures words { (pool.new.words.now, reply_of result) ≡ step_at pool.old.words.now pool.old.sizes task Stage.Read }
    ensures same { IsSameLoan pool.old pool.new }
{
    let row = counted(pool, task);
    let value = pool.as_pool().cell(row.block, row.cell)?;
    Ok(go_on(
        pool,
        task,
        row.moved(Stage::Append, row.hand.guessed(value)),
    ))
}

// The entry that keeps the value read: (L, value read) goes to the cell's log.
fn append_old(pool: &mut PoolMut<'_>, row: Task) -> Result<(), Damaged>
    ensures words { (pool.new.words.now, is_ok result) ≡ touched_in pool.old.words.now pool.old.sizes (touch.Append row.block row.cell (record { version = row.number; old = row.hand.guess })) }
    ensures same { IsSameLoan pool.old pool.new }
{
    let entry = Entry {
        version: row.number,
        old: row.hand.guess,
    };
    pool.append(row.block, row.cell, entry)
}

/// Append (L, value read) to the cell's log.
#[tactic(auto, unfolding(crate::specs::Stepped::step_at, acts::specs::StepPlans::plan_at, layout::specs::Pool::sight, acts::specs::StepPlans::appends_entry), using(crate::proofs::Doing::doing))]
pub fn step_append(pool: &mut PoolMut<'_>, task: u32) -> Result<Told, Refusal>
    requires { task < pool.old.sizes.t }
    ensures words { (pool.new.words.now, reply_of result) ≡ step_at pool.old.words.now pool.old.sizes task Stage.Append }
    ensures same { IsSameLoan pool.old pool.new }
{
    let row = counted(pool, task);
    append_old(pool, row)?;
    Ok(go_on(pool, task, row.moved(Stage::Write, row.hand)))
}

/// Write the cell: the new handle stands on the same block with L + 1.
#[tactic(auto, unfolding(crate::specs::Stepped::step_at, acts::specs::StepPlans::plan_at, layout::specs::Pool::sight, acts::specs::StepPlans::writes_new, acts::specs::StepPlans::finishes), using(crate::proofs::Doing::doing))]
pub fn step_write(pool: &mut PoolMut<'_>, task: u32) -> Result<Told, Refusal>
    requires { task < pool.old.sizes.t }
    ensures words { (pool.new.words.now, reply_of result) ≡ step_at pool.old.words.now pool.old.sizes task Stage.Write }
    ensures same { IsSameLoan pool.old pool.new }
{
    let row = counted(pool, task);
    let serial = next_serial(pool, row.fresh)?;
    pool.write(row.block, row.cell, row.value)?;
    Ok(finish(pool, task, row, serial, row.block, after(row.number)))
}

/// One step of a copy writes the answer to the block being filled; then comes the next cell's get, or the last write.
#[tactic(auto, unfolding(crate::specs::Stepped::step_at, acts::specs::StepPlans::plan_at, layout::specs::Pool::sight, acts::specs::StepPlans::fills_copy), using(crate::proofs::Doing::doing))]
pub fn step_fill_copy(pool: &mut PoolMut<'_>, task: u32) -> Result<Told, Refusal>
    requires { task < pool.old.sizes.t }
    ensures words { (pool.new.words.now, reply_of result) ≡ step_at pool.old.words.now pool.old.sizes task Stage.FillCopy }
    ensures same { IsSameLoan pool.old pool.new }
{
    let row = counted(pool, task);
    pool.fill(row.target, row.hand.cell, row.hand.answer())?;
    let next = after(row.hand.cell);
    if next == pool.sizes.n {
        return Ok(go_on(pool, task, row.moved(Stage::Put, Hand::of(row.cell))));
    }
    Ok(go_on(
        pool,
        task,
        row.moved(Stage::Copying(Reading::Guess), Hand::of(next)),
    ))
}
