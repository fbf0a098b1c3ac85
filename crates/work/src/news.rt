// One step each: taking a block, the cells of a new, and the last write of a copy.
ghost use Rattle.std.specs.Prelude.{◌<◌, ◌≡◌};
ghost use Rattle.acts.specs.Plans.{free_in};
ghost use Rattle.acts.specs.StepPlans.{takes};
ghost use Rattle.acts.specs.Told.{reply_of};
ghost use Rattle.layout.specs.Pool.{applied_in, sight};
ghost use Rattle.work.specs.Stepped.{step_at, taker_of, task_up};
ghost use Rattle.pool.specs.Loans.{IsSameLoan};

use super::row::{counted, finish, go_on, next_serial, rest};
use acts::{Refusal, Told, after};
use pool::PoolMut;
use rulebook::{Hand, Reading, Slot, Stage};

// Where a task goes on that has taken its block.
fn taker(stage: Stage) -> Stage
    ensures { result ≡ taker_of stage }
{
    match stage {
        Stage::TakeNew => Stage::FillNew,
        _ => Stage::Copying(Reading::Guess),
    }
}

/// Take a block and go on, or end: no block is free, and the slot is free again.
#[tactic(auto, unfolding(acts::specs::StepPlans::takes, acts::specs::StepPlans::gives_up, layout::specs::Pool::sight), using(crate::proofs::Doing::doing))]
pub fn step_take(pool: &mut PoolMut<'_>, task: u32, stage: Stage) -> Result<Told, Refusal>
    requires { task < pool.old.sizes.t }
    ensures words { (pool.new.words.now, reply_of result) ≡ applied_in pool.old.words.now pool.old.sizes (takes (free_in (sight pool.old.words.now pool.old.sizes)) (sight pool.old.words.now pool.old.sizes) task (task_up pool.old.words.now pool.old.sizes task) (taker_of stage)) }
    ensures same { IsSameLoan pool.old pool.new }
{
    let row = counted(pool, task);
    if let Some(block) = pool.as_pool().free_block()? {
        pool.take(block)?;
        return Ok(go_on(
            pool,
            task,
            row.moved(taker(stage), Hand::of(0)).aimed(block),
        ));
    }
    let reserved = pool.as_pool().slot(row.fresh)?;
    pool.put_slot(row.fresh, Slot::free(reserved.serial));
    rest(pool, task);
    Err(Refusal::Full { steps: row.steps })
}

/// Write v to the cell in hand of a new; the last write makes the handle.
#[tactic(auto, unfolding(crate::specs::Stepped::step_at, acts::specs::StepPlans::plan_at, layout::specs::Pool::sight, acts::specs::StepPlans::fills_new, acts::specs::StepPlans::finishes), using(crate::proofs::Doing::doing))]
pub fn step_fill(pool: &mut PoolMut<'_>, task: u32) -> Result<Told, Refusal>
    requires { task < pool.old.sizes.t }
    ensures words { (pool.new.words.now, reply_of result) ≡ step_at pool.old.words.now pool.old.sizes task Stage.FillNew }
    ensures same { IsSameLoan pool.old pool.new }
{
    let row = counted(pool, task);
    let next = after(row.hand.cell);
    if next == pool.sizes.n {
        let serial = next_serial(pool, row.fresh)?;
        pool.fill(row.target, row.hand.cell, row.value)?;
        return Ok(finish(pool, task, row, serial, row.target, 0));
    }
    pool.fill(row.target, row.hand.cell, row.value)?;
    Ok(go_on(pool, task, row.moved(Stage::FillNew, Hand::of(next))))
}

/// The last write of a copy: v at i makes the handle.
#[tactic(auto, unfolding(crate::specs::Stepped::step_at, acts::specs::StepPlans::plan_at, layout::specs::Pool::sight, acts::specs::StepPlans::puts, acts::specs::StepPlans::finishes), using(crate::proofs::Doing::doing))]
pub fn step_put(pool: &mut PoolMut<'_>, task: u32) -> Result<Told, Refusal>
    requires { task < pool.old.sizes.t }
    ensures words { (pool.new.words.now, reply_of result) ≡ step_at pool.old.words.now pool.old.sizes task Stage.Put }
    ensures same { IsSameLoan pool.old pool.new }
{
    let row = counted(pool, task);
    let serial = next_serial(pool, row.fresh)?;
    pool.fill(row.target, row.cell, row.value)?;
    Ok(finish(pool, task, row, serial, row.target, 0))
}
