// The starts and the release: an idle task, a live handle, and then the rows are written.
// The pool and the task stand side by side, as in work/src/row.rt, which says why.
ghost use Rattle.std.specs.Prelude.{◌≡◌, ◌%◌, ◌<◌, OnOk};
ghost use Rattle.acts.specs.Plans.{begun_on, live_in, maker, placed, plan_get, plan_new, plan_page, plan_release, plan_set, ready_in, reserves_for};
ghost use Rattle.acts.specs.Told.{reply_of, told_as};
ghost use Rattle.layout.specs.Pool.{applied_in, sight, slot_seen};
ghost use Rattle.pool.specs.Loans.{IsSameLoan};

use acts::{Refusal, Told};
use pool::{Pool, PoolMut};
use rulebook::{Hand, Reading, SLOTS, Slot, Stage, Task};

// ---- what is asked first

// The task is idle.
#[tactic(auto, unfolding(acts::specs::Plans::ready_in, layout::specs::Pool::sight), using(crate::proofs::Ready::readies))]
fn ready(pool: Pool<'_>, task: u32) -> Result<(), Refusal>
    ensures ready { result ≡ ready_in (sight pool.entry.words.now pool.entry.sizes) task }
    ensures there { OnOk result (task < pool.entry.sizes.t) }
{
    if pool.sizes.t <= task {
        return Err(Refusal::NoTask);
    }
    if Stage::try_from(pool.code(task))?.is_busy() {
        return Err(Refusal::Busy);
    }
    Ok(())
}

// The slot of the handle, where it is live with that serial, and its block and its number can be.
#[tactic(auto, unfolding(acts::specs::Plans::live_in, acts::specs::Plans::live_row, acts::specs::Plans::placed, layout::specs::Pool::sight))]
fn live_slot(pool: Pool<'_>, handle: u32) -> Result<Slot, Refusal>
    ensures live { result ≡ live_in (sight pool.entry.words.now pool.entry.sizes) handle }
    ensures there { OnOk result (handle % 256 < pool.entry.sizes.h) }
{
    let index = handle % SLOTS;
    if pool.sizes.h <= index {
        return Err(Refusal::Dead);
    }
    let slot = pool.slot(index)?;
    if !slot.is_live() || slot.serial != handle / SLOTS {
        return Err(Refusal::Dead);
    }
    if !pool.has_block(slot.block) || pool.sizes.n < slot.number {
        return Err(Refusal::Damaged);
    }
    Ok(slot)
}

// ---- the tasks that the starts begin

// A task on a live handle: it takes the handle's block and number.
fn begun(slot: Slot, handle: u32, stage: Stage, cell: u32) -> Task
    ensures { result ≡ begun_on slot handle stage cell 0 0 0 }
{
    Task {
        stage,
        slot: handle % SLOTS,
        block: slot.block,
        number: slot.number,
        cell,
        hand: Hand::of(cell),
        ..Task::idle()
    }
}

// A task that makes a table of the value, with its slot reserved.
fn maker(value: u32, slot: u32) -> Task
    ensures { result ≡ maker value slot }
{
    Task {
        stage: Stage::TakeNew,
        value,
        fresh: slot,
        ..Task::idle()
    }
}

// The slot is reserved for the task, which is started.
#[tactic(auto, unfolding(acts::specs::Plans::reserves_for), using(work::proofs::Doing::doing))]
#[inline(always)]
fn reserve(pool: &mut PoolMut<'_>, slot: u32, task: u32, begun: Task) -> Result<Told, Refusal>
    requires { task < pool.old.sizes.t }
    ensures words { (pool.new.words.now, reply_of result) ≡ applied_in pool.old.words.now pool.old.sizes (reserves_for (slot_seen pool.old.words.now pool.old.sizes slot) slot task begun) }
    ensures same { IsSameLoan pool.old pool.new }
{
    let vacant = pool.as_pool().slot(slot)?;
    pool.put_slot(slot, Slot::reserved(vacant.serial));
    pool.put_task(task, begun);
    Ok(Told::Quiet)
}

// ---- the starts

/// A new table.
#[tactic(auto, unfolding(acts::specs::Plans::plan_new, acts::specs::Plans::new_on, acts::specs::Plans::unless, layout::specs::Pool::sight), using(work::proofs::Doing::doing))]
pub fn new(pool: &mut PoolMut<'_>, task: u32, value: u32) -> Result<Told, Refusal>
    ensures words { (pool.new.words.now, reply_of result) ≡ applied_in pool.old.words.now pool.old.sizes (plan_new (sight pool.old.words.now pool.old.sizes) task value) }
    ensures same { IsSameLoan pool.old pool.new }
{
    ready(pool.as_pool(), task)?;
    let slot = pool.as_pool().vacancy()?.ok_or(Refusal::NoSlot)?;
    reserve(pool, slot, task, maker(value, slot))
}

/// A get: the guess is read first.
#[tactic(auto, unfolding(acts::specs::Plans::plan_get, acts::specs::Plans::get_on, acts::specs::Plans::unless, layout::specs::Pool::sight), using(work::proofs::Doing::doing))]
pub fn get(pool: &mut PoolMut<'_>, task: u32, handle: u32, cell: u32) -> Result<Told, Refusal>
    ensures words { (pool.new.words.now, reply_of result) ≡ applied_in pool.old.words.now pool.old.sizes (plan_get (sight pool.old.words.now pool.old.sizes) task handle cell) }
    ensures same { IsSameLoan pool.old pool.new }
{
    ready(pool.as_pool(), task)?;
    let slot = live_slot(pool.as_pool(), handle)?;
    if pool.sizes.n <= cell {
        return Err(Refusal::NoCell);
    }
    pool.put_task(
        task,
        begun(slot, handle, Stage::Getting(Reading::Guess), cell),
    );
    Ok(Told::Quiet)
}

/// A set: the exchange is first.
#[tactic(auto, unfolding(acts::specs::Plans::plan_set, acts::specs::Plans::set_on, acts::specs::Plans::set_at, acts::specs::Plans::unless, layout::specs::Pool::sight), using(work::proofs::Doing::doing))]
pub fn set(
    pool: &mut PoolMut<'_>,
    task: u32,
    handle: u32,
    cell: u32,
    value: u32,
) -> Result<Told, Refusal>
    ensures words { (pool.new.words.now, reply_of result) ≡ applied_in pool.old.words.now pool.old.sizes (plan_set (sight pool.old.words.now pool.old.sizes) task handle cell value) }
    ensures same { IsSameLoan pool.old pool.new }
{
    ready(pool.as_pool(), task)?;
    let slot = live_slot(pool.as_pool(), handle)?;
    if pool.sizes.n <= cell {
        return Err(Refusal::NoCell);
    }
    let fresh = pool.as_pool().vacancy()?.ok_or(Refusal::NoSlot)?;
    let setter = Task {
        value,
        fresh,
        ..begun(slot, handle, Stage::Exchange, cell)
    };
    reserve(pool, fresh, task, setter)
}

/// A page of so many cells. The sum is taken only where it can not wrap.
#[tactic(auto, unfolding(acts::specs::Plans::plan_page, acts::specs::Plans::page_on, acts::specs::Plans::unless, layout::specs::Pool::sight), using(work::proofs::Doing::doing))]
pub fn page(
    pool: &mut PoolMut<'_>,
    task: u32,
    handle: u32,
    from: u32,
    count: u32,
) -> Result<Told, Refusal>
    ensures words { (pool.new.words.now, reply_of result) ≡ applied_in pool.old.words.now pool.old.sizes (plan_page (sight pool.old.words.now pool.old.sizes) task handle from count) }
    ensures same { IsSameLoan pool.old pool.new }
{
    ready(pool.as_pool(), task)?;
    let slot = live_slot(pool.as_pool(), handle)?;
    if count == 0 || pool.sizes.n < count || pool.sizes.n - count < from {
        return Err(Refusal::NoCell);
    }
    let pager = Task {
        until: from + count,
        ..begun(slot, handle, Stage::Paging(Reading::Guess), from)
    };
    pool.put_task(task, pager);
    Ok(Told::Quiet)
}

// ---- release

/// The slot of the handle is free; its serial stays.
#[tactic(auto, unfolding(acts::specs::Plans::plan_release, acts::specs::Plans::release_on, acts::specs::Plans::release_at, acts::specs::Plans::unless, layout::specs::Pool::sight), using(work::proofs::Doing::doing))]
pub fn release(pool: &mut PoolMut<'_>, handle: u32) -> Result<Told, Refusal>
    ensures words { (pool.new.words.now, reply_of result) ≡ applied_in pool.old.words.now pool.old.sizes (plan_release (sight pool.old.words.now pool.old.sizes) handle) }
    ensures same { IsSameLoan pool.old pool.new }
{
    let released = live_slot(pool.as_pool(), handle)?;
    if pool.as_pool().user(handle % SLOTS)?.is_some() {
        return Err(Refusal::InUse);
    }
    pool.put_slot(handle % SLOTS, Slot::free(released.serial));
    Ok(Told::Quiet)
}
