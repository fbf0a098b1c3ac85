// A step: the stage of the task decides.
ghost use Rattle.std.specs.Prelude.{◌<◌, ◌≡◌};
ghost use Rattle.acts.specs.StepPlans.{plan_step};
ghost use Rattle.acts.specs.Told.{reply_of};
ghost use Rattle.layout.specs.Pool.{applied_in, sight};
ghost use Rattle.work.specs.Stepped.{step_at};
ghost use Rattle.pool.specs.Loans.{IsSameLoan};

use super::news::{step_fill, step_put, step_take};
use super::readings::{step_guess, step_length, step_probe, step_version};
use super::sets::{step_append, step_exchange, step_fill_copy, step_read, step_write};
use acts::{Reader, Refusal, Told};
use pool::PoolMut;
use rulebook::{Reading, Stage};

// A step at the stage. Each function of a stage is called at one place, so that a step is one piece of machine code.
#[tactic(auto, unfolding(crate::specs::Stepped::step_at, acts::specs::StepPlans::plan_at, layout::specs::Pool::sight), using(crate::proofs::Doing::doing))]
fn step_at(pool: &mut PoolMut<'_>, task: u32, stage: Stage) -> Result<Told, Refusal>
    requires { task < pool.old.sizes.t }
    ensures words { (pool.new.words.now, reply_of result) ≡ step_at pool.old.words.now pool.old.sizes task stage }
    ensures same { IsSameLoan pool.old pool.new }
{
    let (reader, reading) = match stage {
        Stage::Idle => return Err(Refusal::Idle),
        Stage::TakeNew | Stage::TakeCopy => return step_take(pool, task, stage),
        Stage::FillNew => return step_fill(pool, task),
        Stage::Exchange => return step_exchange(pool, task),
        Stage::Read => return step_read(pool, task),
        Stage::Append => return step_append(pool, task),
        Stage::Write => return step_write(pool, task),
        Stage::FillCopy => return step_fill_copy(pool, task),
        Stage::Put => return step_put(pool, task),
        Stage::Getting(reading) => (Reader::Get, reading),
        Stage::Copying(reading) => (Reader::Copy, reading),
        Stage::Paging(reading) => (Reader::Page, reading),
    };
    match reading {
        Reading::Guess => step_guess(pool, task, reader),
        Reading::Version => step_version(pool, task, reader),
        Reading::Length => step_length(pool, task, reader),
        Reading::Probe => step_probe(pool, task, reader),
    }
}

/// The task takes a step.
#[tactic(auto, using(crate::proofs::Seen::steps))]
pub fn step(pool: &mut PoolMut<'_>, task: u32) -> Result<Told, Refusal>
    ensures words { (pool.new.words.now, reply_of result) ≡ applied_in pool.old.words.now pool.old.sizes (plan_step (sight pool.old.words.now pool.old.sizes) task) }
    ensures same { IsSameLoan pool.old pool.new }
{
    if pool.sizes.t <= task {
        return Err(Refusal::NoTask);
    }
    let stage = Stage::try_from(pool.as_pool().code(task))?;
    step_at(pool, task, stage)
}
