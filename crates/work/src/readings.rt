// The steps of a get: of a get itself, of a copy and of a page. Each reads one word of the block, and goes on or settles.
// The reader is a value: a closure or a type parameter makes three copies of a step's code, and a step is one piece of machine code.
ghost use Rattle.std.specs.Prelude.{Ok, ◌<◌, ◌≡◌};
ghost use Rattle.rulebook.specs.declared.Progress.TheVariants as progress;
ghost use Rattle.acts.specs.StepPlans.{goes_on, page_settles, stage_for};
ghost use Rattle.acts.specs.Told.{reply_of, told_as};
ghost use Rattle.layout.specs.Pool.{applied_in};
ghost use Rattle.work.specs.Stepped.{step_at, task_up};
ghost use Rattle.pool.specs.Loans.{IsSameLoan};

use super::row::{counted, go_on, rest};
use acts::{Reader, Refusal, Told, after};
use pool::PoolMut;
use rulebook::{Hand, Reading, Stage, Task};

// ---- the cell in hand is settled

// The step that settles a cell hands it out; the last one ends the page.
#[tactic(auto, unfolding(acts::specs::StepPlans::page_settles), using(crate::proofs::Doing::doing))]
fn settle_page(pool: &mut PoolMut<'_>, task: u32, hand: Hand) -> Told
    requires { task < pool.old.sizes.t }
    ensures words { (pool.new.words.now, told_as result) ≡ applied_in pool.old.words.now pool.old.sizes (page_settles hand task (task_up pool.old.words.now pool.old.sizes task)) }
    ensures same { IsSameLoan pool.old pool.new }
{
    let row = counted(pool, task);
    let value = hand.answer();
    let next = after(hand.cell);
    if next == row.until {
        rest(pool, task);
        return Told::HandedLast {
            steps: row.steps,
            cell: hand.cell,
            value,
        };
    }
    go_on(
        pool,
        task,
        row.moved(Stage::Paging(Reading::Guess), Hand::of(next)),
    );
    Told::Handed {
        cell: hand.cell,
        value,
    }
}

#[tactic(auto, unfolding(acts::specs::StepPlans::goes_on, acts::specs::StepPlans::get_goes, acts::specs::StepPlans::copy_goes, acts::specs::StepPlans::page_goes), using(crate::proofs::Doing::doing))]
fn settle(pool: &mut PoolMut<'_>, task: u32, reader: Reader, hand: Hand) -> Told
    requires { task < pool.old.sizes.t }
    ensures words { (pool.new.words.now, told_as result) ≡ applied_in pool.old.words.now pool.old.sizes (goes_on reader (Ok (progress.Settled hand)) task (task_up pool.old.words.now pool.old.sizes task)) }
    ensures same { IsSameLoan pool.old pool.new }
{
    match reader {
        Reader::Get => {
            let row = counted(pool, task);
            rest(pool, task);
            Told::Got {
                steps: row.steps,
                cell: hand.cell,
                value: hand.answer(),
            }
        }
        Reader::Copy => {
            let row = counted(pool, task);
            go_on(pool, task, row.moved(Stage::FillCopy, hand))
        }
        Reader::Page => settle_page(pool, task, hand),
    }
}

// ---- one step each

/// First: read the cell, the guess.
#[tactic(auto, unfolding(acts::specs::StepPlans::read_in, acts::specs::StepPlans::read_guess, layout::specs::Pool::sight), using(crate::proofs::Stages::readings))]
pub fn step_guess(pool: &mut PoolMut<'_>, task: u32, reader: Reader) -> Result<Told, Refusal>
    requires { task < pool.old.sizes.t }
    ensures words { (pool.new.words.now, reply_of result) ≡ step_at pool.old.words.now pool.old.sizes task (stage_for reader Reading.Guess) }
    ensures same { IsSameLoan pool.old pool.new }
{
    let row = counted(pool, task);
    let value = pool.as_pool().cell(row.block, row.hand.cell)?;
    let stage = reader.stage(Reading::Version);
    Ok(go_on(pool, task, row.moved(stage, row.hand.guessed(value))))
}

/// Second: read V; if V = L the guess is the answer.
#[tactic(auto, unfolding(acts::specs::StepPlans::read_in, acts::specs::StepPlans::read_version, layout::specs::Pool::sight), using(crate::proofs::Stages::readings))]
pub fn step_version(pool: &mut PoolMut<'_>, task: u32, reader: Reader) -> Result<Told, Refusal>
    requires { task < pool.old.sizes.t }
    ensures words { (pool.new.words.now, reply_of result) ≡ step_at pool.old.words.now pool.old.sizes task (stage_for reader Reading.Version) }
    ensures same { IsSameLoan pool.old pool.new }
{
    let row = counted(pool, task);
    if pool.as_pool().version(row.block)? == row.number {
        return Ok(settle(pool, task, reader, row.hand));
    }
    let stage = reader.stage(Reading::Length);
    Ok(go_on(pool, task, row.moved(stage, row.hand)))
}

/// Third: read the log's length; if 0, the guess is the answer.
#[tactic(auto, unfolding(acts::specs::StepPlans::read_in, acts::specs::StepPlans::read_length, layout::specs::Pool::sight), using(crate::proofs::Stages::readings))]
pub fn step_length(pool: &mut PoolMut<'_>, task: u32, reader: Reader) -> Result<Told, Refusal>
    requires { task < pool.old.sizes.t }
    ensures words { (pool.new.words.now, reply_of result) ≡ step_at pool.old.words.now pool.old.sizes task (stage_for reader Reading.Length) }
    ensures same { IsSameLoan pool.old pool.new }
{
    let row = counted(pool, task);
    let entries = pool.as_pool().log_length(row.block, row.hand.cell)?;
    if entries == 0 {
        return Ok(settle(pool, task, reader, row.hand));
    }
    let stage = reader.stage(Reading::Probe);
    Ok(go_on(pool, task, row.moved(stage, row.hand.searching(entries))))
}

/// Then one probe a step; when lo = hi, in the same step, the search is over. A search that is over has no entry in its middle.
#[tactic(auto, unfolding(acts::specs::StepPlans::read_in, acts::specs::StepPlans::read_entry, layout::specs::Pool::sight), using(crate::proofs::Stages::readings))]
pub fn step_probe(pool: &mut PoolMut<'_>, task: u32, reader: Reader) -> Result<Told, Refusal>
    requires { task < pool.old.sizes.t }
    ensures words { (pool.new.words.now, reply_of result) ≡ step_at pool.old.words.now pool.old.sizes task (stage_for reader Reading.Probe) }
    ensures same { IsSameLoan pool.old pool.new }
{
    let row = counted(pool, task);
    if row.hand.hi <= row.hand.lo {
        return Err(Refusal::Damaged);
    }
    let entry = pool
        .as_pool()
        .entry(row.block, row.hand.cell, row.hand.middle())?;
    let hand = row.hand.probed(entry, row.number);
    if hand.lo == hand.hi {
        return Ok(settle(pool, task, reader, hand));
    }
    let stage = reader.stage(Reading::Probe);
    Ok(go_on(pool, task, row.moved(stage, hand)))
}
