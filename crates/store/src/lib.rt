// The store's calls on a lent pool. Each reads the header, and does what the row of its task and one block ask for, in place.
// The line for that stands in each: were one function to read it and to lend the pool, the words' lender would learn nothing where it refuses.
#![tactic(auto)]

mod looks;
mod starts;

ghost use Rattle.std.specs.Prelude.{◌≡◌};
ghost use Rattle.acts.specs.Told.{reply_of};
ghost use Rattle.layout.specs.Pool.{open_in};
ghost use Rattle.layout.specs.Calls.{start_new_in, start_get_in, start_set_in, start_page_in, step_in, release_in};

use acts::{Refusal, Told};
pub use looks::{look_cell, look_entry, look_log, look_task, look_version, report};
use pool::{PoolMut, header_of};

/// A store of so many cells, handles and tasks in the lent pool.
pub fn open(words: &mut [u32], cells: u32, handles: u32, tasks: u32) -> Result<Told, Refusal>
    ensures { (words.new, reply_of result) ≡ open_in words.old cells handles tasks }
{
    pool::open(words, cells, handles, tasks)
}

/// The task begins a new table, each of whose cells is the value.
#[tactic(auto, unfolding(layout::specs::Calls::start_new_in, layout::specs::Calls::called_in))]
pub fn start_new(words: &mut [u32], task: u32, value: u32) -> Result<Told, Refusal>
    ensures { (words.new, reply_of result) ≡ start_new_in words.old task value }
{
    let sizes = header_of(words).ok_or(Refusal::NoPool)?;
    starts::new(&mut PoolMut::new(words, sizes), task, value)
}

/// The task begins a get of the cell.
#[tactic(auto, unfolding(layout::specs::Calls::start_get_in, layout::specs::Calls::called_in))]
pub fn start_get(words: &mut [u32], task: u32, handle: u32, cell: u32) -> Result<Told, Refusal>
    ensures { (words.new, reply_of result) ≡ start_get_in words.old task handle cell }
{
    let sizes = header_of(words).ok_or(Refusal::NoPool)?;
    starts::get(&mut PoolMut::new(words, sizes), task, handle, cell)
}

/// The task begins a set of the cell.
#[tactic(auto, unfolding(layout::specs::Calls::start_set_in, layout::specs::Calls::called_in))]
pub fn start_set(
    words: &mut [u32],
    task: u32,
    handle: u32,
    cell: u32,
    value: u32,
) -> Result<Told, Refusal>
    ensures { (words.new, reply_of result) ≡ start_set_in words.old task handle cell value }
{
    let sizes = header_of(words).ok_or(Refusal::NoPool)?;
    starts::set(&mut PoolMut::new(words, sizes), task, handle, cell, value)
}

/// The task begins a page of so many cells.
#[tactic(auto, unfolding(layout::specs::Calls::start_page_in, layout::specs::Calls::called_in))]
pub fn start_page(
    words: &mut [u32],
    task: u32,
    handle: u32,
    from: u32,
    count: u32,
) -> Result<Told, Refusal>
    ensures { (words.new, reply_of result) ≡ start_page_in words.old task handle from count }
{
    let sizes = header_of(words).ok_or(Refusal::NoPool)?;
    starts::page(&mut PoolMut::new(words, sizes), task, handle, from, count)
}

/// The task takes a step.
#[tactic(auto, unfolding(layout::specs::Calls::step_in, layout::specs::Calls::called_in))]
pub fn step(words: &mut [u32], task: u32) -> Result<Told, Refusal>
    ensures { (words.new, reply_of result) ≡ step_in words.old task }
{
    let sizes = header_of(words).ok_or(Refusal::NoPool)?;
    work::step(&mut PoolMut::new(words, sizes), task)
}

/// The handle is live no more.
#[tactic(auto, unfolding(layout::specs::Calls::release_in, layout::specs::Calls::called_in))]
pub fn release(words: &mut [u32], handle: u32) -> Result<Told, Refusal>
    ensures { (words.new, reply_of result) ≡ release_in words.old handle }
{
    let sizes = header_of(words).ok_or(Refusal::NoPool)?;
    starts::release(&mut PoolMut::new(words, sizes), handle)
}
