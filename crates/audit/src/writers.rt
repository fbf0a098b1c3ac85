// Rule 7: sets in place, past their exchange.
ghost use Rattle.std.specs.Prelude.{◌≡◌, ◌<◌, Option};
ghost use Rattle.theorems.specs.Terms.{all_to};
ghost use Rattle.rules.specs.Paced.{Paced};
ghost use Rattle.survey.specs.Rules.{shown};
ghost use Rattle.survey.specs.Broken.{not_above, writer_at};
ghost use Rattle.audit.specs.Written.{written_by};

use pool::Pool;
use rulebook::Task;
use survey::all_below;
use survey::holds::alone;

// The block that the task writes in place.
#[tactic(auto, unfolding(crate::specs::Written::written_by))]
fn written_by(task: Task) -> Option<u32>
    ensures { result ≡ written_by task }
{
    task.stage.writes_in_place().then_some(task.block)
}

#[tactic(auto, unfolding(survey::specs::Broken::not_above), using(survey::proofs::Ways::slot_as))]
fn not_above(pool: Pool<'_>, writer: Task, slot: u32) -> bool
    requires { slot < pool.sizes.h }
    ensures { result ≡ not_above pool.entry.sizes pool.entry.words.now writer slot }
{
    let handle = pool.raw_slot(slot);
    !handle.is_live() || handle.block != writer.block || handle.number <= writer.number
}

// A writer is alone on its block, has raised V, and has no handle above it.
#[tactic(auto, unfolding(survey::specs::Broken::writer_at, crate::specs::Written::written_by), using(crate::proofs::Sounding::writers))]
fn writer_at(pool: Pool<'_>, task: u32) -> bool
    requires paced { Paced (shown pool.sizes pool.words.now) }
    requires there { task < pool.sizes.t }
    ensures { result ≡ writer_at pool.entry.sizes pool.entry.words.now task }
{
    let writer = pool.raw_task(task);
    let Some(block) = written_by(writer) else {
        return true;
    };
    pool.raw_version(block) == writer.number + 1
        && alone(pool, task, block, written_by)
        && all_below(pool.sizes.h, move |slot| not_above(pool, writer, slot))
}

// Where every row is in its ranges.
pub fn writers_hold(pool: Pool<'_>) -> bool
    requires { Paced (shown pool.sizes pool.words.now) }
    ensures { result ≡ all_to (writer_at pool.entry.sizes pool.entry.words.now) pool.entry.sizes.t }
{
    all_below(pool.sizes.t, move |task| writer_at(pool, task))
}
