// The row of a task in a step: read, changed and written in place. The pool and the task stand side by side, and not in one struct: what such a
// struct leaves of the lent words was not proved to be what its lender gets back.
ghost use Rattle.std.specs.Prelude.{◌≡◌, ◌≤◌, ◌<◌, IfOk};
ghost use Rattle.rulebook.specs.Sizes.{last_serial};
ghost use Rattle.rulebook.specs.State.{idle};
ghost use Rattle.acts.specs.Told.{told_as};
ghost use Rattle.layout.specs.Pool.{put_task, slot_seen};
ghost use Rattle.pool.specs.Loans.{IsSameLoan};
ghost use Rattle.work.specs.Stepped.{finished, gone_on, next_serial, task_up};

use acts::{Told, ticked};
use pool::PoolMut;
use rulebook::{Damaged, LAST_SERIAL, SLOTS, Slot, Stage, Status, Task};

/// The task's row with this step counted. Its stage is known where it is called, and not read again.
#[tactic(auto, unfolding(crate::specs::Stepped::task_up))]
pub fn counted(pool: &PoolMut<'_>, task: u32) -> Task
    requires { task < pool.now.sizes.t }
    ensures { result ≡ task_up pool.now.words.now pool.now.sizes task }
{
    ticked(pool.as_pool().task_at(task, Stage::Idle))
}

/// The task goes on as the row says, and nothing is told.
pub fn go_on(pool: &mut PoolMut<'_>, task: u32, row: Task) -> Told
    requires { task < pool.old.sizes.t }
    ensures words { (pool.new.words.now, told_as result) ≡ gone_on pool.old.words.now pool.old.sizes task row }
    ensures same { IsSameLoan pool.old pool.new }
{
    pool.put_task(task, row);
    Told::Quiet
}

/// The task is idle.
pub fn rest(pool: &mut PoolMut<'_>, task: u32)
    requires { task < pool.old.sizes.t }
    ensures words { pool.new.words.now ≡ put_task pool.old.words.now pool.old.sizes task idle }
    ensures same { IsSameLoan pool.old pool.new }
{
    pool.put_task(task, Task::idle());
}

/// The serial that a slot gets which a task has reserved.
#[tactic(auto, unfolding(crate::specs::Stepped::next_serial, rulebook::specs::Sizes::last_serial))]
pub fn next_serial(pool: &PoolMut<'_>, slot: u32) -> Result<u32, Damaged>
    ensures serial { result ≡ next_serial (slot_seen pool.now.words.now pool.now.sizes slot) }
    ensures there { IfOk result (λ serial. (slot < pool.now.sizes.h) × (serial ≤ last_serial)) }
{
    let reserved = pool.as_pool().slot(slot)?;
    if LAST_SERIAL <= reserved.serial {
        return Err(Damaged);
    }
    Ok(reserved.serial + 1)
}

/// The task ends: its slot carries a handle on the block, with the number.
#[tactic(auto, unfolding(rulebook::specs::Sizes::last_serial))]
pub fn finish(
    pool: &mut PoolMut<'_>,
    task: u32,
    row: Task,
    serial: u32,
    block: u32,
    number: u32,
) -> Told
    requires { (task < pool.old.sizes.t) × (row.fresh < pool.old.sizes.h) × (serial ≤ last_serial) }
    ensures words { (pool.new.words.now, told_as result) ≡ finished pool.old.words.now pool.old.sizes task row serial block number }
    ensures same { IsSameLoan pool.old pool.new }
{
    let live = Slot {
        serial,
        status: Status::Live,
        block,
        number,
    };
    pool.put_slot(row.fresh, live);
    rest(pool, task);
    Told::Made {
        steps: row.steps,
        handle: row.fresh + SLOTS * serial,
    }
}
