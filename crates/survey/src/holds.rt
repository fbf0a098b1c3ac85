// Rule 6: what the tasks hold. Handles that they name, slots that they have reserved, blocks that they fill.
ghost use Rattle.std.specs.Prelude.{◌≡◌, ◌<◌, ℕ, Option};
ghost use Rattle.theorems.specs.Terms.{all_to};
ghost use Rattle.survey.specs.Broken.{named_at, fresh_at, off_target, target_at, rule6_at, owns_at, owner_at, rule6};
ghost use Rattle.survey.specs.Holds.{stands_as};
ghost use Rattle.survey.specs.Held.{reserved_by, filled_by, alone_at};

use super::{all_below, any_below};
use pool::Pool;
use rulebook::{Slot, Task};

// The handle in the slot is live where the task found it.
#[tactic(auto, unfolding(crate::specs::Holds::stands_as))]
fn stands_as(task: Task, slot: Slot) -> bool
    ensures { result ≡ stands_as task slot }
{
    slot.is_live() && slot.block == task.block && slot.number == task.number
}

// The handle that the task names is live.
#[tactic(auto, unfolding(crate::specs::Broken::named_at, crate::specs::Holds::stands_as), using(layout::specs::View::view_slot_at, layout::specs::View::view_task_at, crate::proofs::Ways::beyond))]
fn names_live(pool: Pool<'_>, task: u32) -> bool
    requires { task < pool.sizes.t }
    ensures { result ≡ named_at pool.entry.sizes pool.entry.words.now task }
{
    let busy = pool.raw_task(task);
    if !busy.stage.names_handle() {
        return true;
    }
    busy.slot < pool.sizes.h && stands_as(busy, pool.raw_slot(busy.slot))
}

// The slot that the task has reserved.
#[tactic(auto, unfolding(crate::specs::Held::reserved_by))]
fn reserved_by(task: Task) -> Option<u32>
    ensures { result ≡ reserved_by task }
{
    task.stage.reserves_slot().then_some(task.fresh)
}

// The block that the task fills.
#[tactic(auto, unfolding(crate::specs::Held::filled_by))]
fn filled_by(task: Task) -> Option<u32>
    ensures { result ≡ filled_by task }
{
    task.stage.fills_block().then_some(task.target)
}

/// No task but this one holds the thing.
#[tactic(auto, using(crate::proofs::Ways::loops))]
pub fn alone<F: Fn(Task) -> Option<u32>>(pool: Pool<'_>, task: u32, thing: u32, holds: F) -> bool
    ghost held: { Task → Option ℕ }
    requires may { (other : Task) → F.pre holds other }
    requires gives { (other : Task) (found : Option ℕ) → F.post holds other found → found ≡ held other }
    ensures { result ≡ all_to (alone_at pool.entry.sizes pool.entry.words.now held task thing) pool.entry.sizes.t }
{
    for other in 0..pool.sizes.t {
        if holds(pool.raw_task(other)) == Some(thing) && other != task {
            return false;
        }
    }
    true
}

// The slot that the task has reserved is reserved, and for it alone.
#[tactic(auto, unfolding(crate::specs::Broken::fresh_at, crate::specs::Held::reserved_by), using(layout::specs::View::view_slot_at, layout::specs::View::view_task_at, crate::proofs::Holding::alone_fresh))]
fn fresh_at(pool: Pool<'_>, task: u32) -> bool
    requires { task < pool.sizes.t }
    ensures { result ≡ fresh_at pool.entry.sizes pool.entry.words.now task }
{
    let Some(slot) = reserved_by(pool.raw_task(task)) else {
        return true;
    };
    slot < pool.sizes.h && pool.raw_slot(slot).is_reserved() && alone(pool, task, slot, reserved_by)
}

#[tactic(auto, unfolding(crate::specs::Broken::off_target), using(layout::specs::View::view_slot_at))]
fn off_target(pool: Pool<'_>, task: Task, slot: u32) -> bool
    requires { slot < pool.sizes.h }
    ensures { result ≡ off_target pool.entry.sizes pool.entry.words.now task slot }
{
    let handle = pool.raw_slot(slot);
    !handle.is_live() || handle.block != task.target
}

// The block that the task fills has no other task and no live handle.
#[tactic(auto, unfolding(crate::specs::Broken::target_at, crate::specs::Held::filled_by), using(layout::specs::View::view_task_at, crate::proofs::Holding::alone_target))]
fn target_at(pool: Pool<'_>, task: u32) -> bool
    requires { task < pool.sizes.t }
    ensures { result ≡ target_at pool.entry.sizes pool.entry.words.now task }
{
    let busy = pool.raw_task(task);
    let Some(block) = filled_by(busy) else {
        return true;
    };
    alone(pool, task, block, filled_by)
        && all_below(pool.sizes.h, move |slot| off_target(pool, busy, slot))
}

#[tactic(auto, unfolding(crate::specs::Broken::rule6_at))]
fn holds_well(pool: Pool<'_>, task: u32) -> bool
    requires { task < pool.sizes.t }
    ensures { result ≡ rule6_at pool.entry.sizes pool.entry.words.now task }
{
    names_live(pool, task) && fresh_at(pool, task) && target_at(pool, task)
}

#[tactic(auto, unfolding(crate::specs::Broken::owns_at, crate::specs::Held::reserved_by), using(layout::specs::View::view_task_at))]
fn owns(pool: Pool<'_>, slot: u32, task: u32) -> bool
    requires { task < pool.sizes.t }
    ensures { result ≡ owns_at pool.entry.sizes pool.entry.words.now slot task }
{
    reserved_by(pool.raw_task(task)) == Some(slot)
}

// The slot, if it is reserved, belongs to a task.
#[tactic(auto, unfolding(crate::specs::Broken::owner_at), using(layout::specs::View::view_slot_at))]
fn owner_at(pool: Pool<'_>, slot: u32) -> bool
    requires { slot < pool.sizes.h }
    ensures { result ≡ owner_at pool.entry.sizes pool.entry.words.now slot }
{
    !pool.raw_slot(slot).is_reserved()
        || any_below(pool.sizes.t, move |task| owns(pool, slot, task))
}

/// Rule 6.
#[tactic(auto, unfolding(crate::specs::Broken::rule6))]
pub fn all_held_once(pool: Pool<'_>) -> bool
    ensures { result ≡ rule6 pool.entry.sizes pool.entry.words.now }
{
    all_below(pool.sizes.t, move |task| holds_well(pool, task))
        && all_below(pool.sizes.h, move |slot| owner_at(pool, slot))
}
