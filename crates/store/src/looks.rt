// The looks and the report: they read, and write nothing.
// The line that reads the header stands in each: it is one line with `?`, and a closure for what follows is as long as the function.
ghost use Rattle.std.specs.Prelude.{◌≡◌};
ghost use Rattle.acts.specs.Looks.{visible_in};
ghost use Rattle.acts.specs.Told.{shown_of};
ghost use Rattle.layout.specs.Pool.{sight};
ghost use Rattle.layout.specs.Calls.{look_version_in, look_cell_in, look_log_in, look_entry_in, look_task_in, report_in};

use acts::{Refusal, Shown};
use pool::Pool;

// A live handle stands on the block.
#[tactic(auto, unfolding(acts::specs::Looks::visible_in, acts::specs::Looks::visible, layout::specs::Pool::sight))]
fn visible(pool: Pool<'_>, block: u32) -> Result<(), Refusal>
    ensures { result ≡ visible_in (sight pool.entry.words.now pool.entry.sizes) block }
{
    if pool.sizes.b <= block || pool.stander(block)?.is_none() {
        return Err(Refusal::Unseen);
    }
    Ok(())
}

/// V of a block on which a live handle stands.
#[tactic(auto, unfolding(layout::specs::Calls::look_version_in, layout::specs::Calls::seen_in, acts::specs::Looks::sees_version, acts::specs::Looks::where_visible, acts::specs::Looks::shows, layout::specs::Pool::sight))]
pub fn look_version(words: &[u32], block: u32) -> Result<Shown, Refusal>
    ensures { shown_of result ≡ look_version_in words.now block }
{
    let pool = Pool::of(words).ok_or(Refusal::NoPool)?;
    visible(pool, block)?;
    Ok(Shown::Number(pool.version(block)?))
}

/// Its cell.
#[tactic(auto, unfolding(layout::specs::Calls::look_cell_in, layout::specs::Calls::seen_in, acts::specs::Looks::sees_cell, acts::specs::Looks::where_visible, acts::specs::Looks::shows, layout::specs::Pool::sight))]
pub fn look_cell(words: &[u32], block: u32, cell: u32) -> Result<Shown, Refusal>
    ensures { shown_of result ≡ look_cell_in words.now block cell }
{
    let pool = Pool::of(words).ok_or(Refusal::NoPool)?;
    visible(pool, block)?;
    if pool.sizes.n <= cell {
        return Err(Refusal::Unseen);
    }
    Ok(Shown::Number(pool.cell(block, cell)?))
}

/// The length of that cell's log.
#[tactic(auto, unfolding(layout::specs::Calls::look_log_in, layout::specs::Calls::seen_in, acts::specs::Looks::sees_log, acts::specs::Looks::where_visible, acts::specs::Looks::shows, layout::specs::Pool::sight))]
pub fn look_log(words: &[u32], block: u32, cell: u32) -> Result<Shown, Refusal>
    ensures { shown_of result ≡ look_log_in words.now block cell }
{
    // It differs from look_cell in one call: a closure for that call is as long as the function.
    let pool = Pool::of(words).ok_or(Refusal::NoPool)?;
    visible(pool, block)?;
    if pool.sizes.n <= cell {
        return Err(Refusal::Unseen);
    }
    Ok(Shown::Number(pool.log_length(block, cell)?))
}

/// An entry of that log.
#[tactic(auto, unfolding(layout::specs::Calls::look_entry_in, layout::specs::Calls::seen_in, acts::specs::Looks::sees_entry, acts::specs::Looks::where_visible, acts::specs::Looks::sees_under, acts::specs::Looks::shows_entry, layout::specs::Pool::sight))]
pub fn look_entry(words: &[u32], block: u32, cell: u32, index: u32) -> Result<Shown, Refusal>
    ensures { shown_of result ≡ look_entry_in words.now block cell index }
{
    let pool = Pool::of(words).ok_or(Refusal::NoPool)?;
    visible(pool, block)?;
    if pool.sizes.n <= cell || pool.log_length(block, cell)? <= index {
        return Err(Refusal::Unseen);
    }
    Ok(Shown::Entry(pool.entry(block, cell, index)?))
}

/// The task.
#[tactic(auto, unfolding(layout::specs::Calls::look_task_in, layout::specs::Calls::seen_in, acts::specs::Looks::sees_task, acts::specs::Looks::sees_row, layout::specs::Pool::sight))]
pub fn look_task(words: &[u32], task: u32) -> Result<Shown, Refusal>
    ensures { shown_of result ≡ look_task_in words.now task }
{
    let pool = Pool::of(words).ok_or(Refusal::NoPool)?;
    if pool.sizes.t <= task {
        return Err(Refusal::NoTask);
    }
    Ok(Shown::Task(pool.task(task)?))
}

/// The live handles, and the blocks on which they stand.
#[tactic(auto, unfolding(layout::specs::Calls::report_in, layout::specs::Calls::seen_in, acts::specs::Looks::sees_report, acts::specs::Looks::reports, layout::specs::Pool::sight))]
pub fn report(words: &[u32]) -> Result<Shown, Refusal>
    ensures { shown_of result ≡ report_in words.now }
{
    let pool = Pool::of(words).ok_or(Refusal::NoPool)?;
    Ok(Shown::Report {
        handles: pool.live_handles()?,
        blocks: pool.stood_blocks()?,
    })
}
