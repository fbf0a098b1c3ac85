// Rule 7: the words of blocks that tasks fill.
ghost use Rattle.std.specs.Prelude.{◌≡◌, ◌<◌};
ghost use Rattle.theorems.specs.Terms.{all_to};
ghost use Rattle.survey.specs.Broken.{filling_at};
ghost use Rattle.audit.specs.Fillers.{Facts};

use pool::Pool;
use survey::all_below;

#[tactic(auto, unfolding(survey::specs::Broken::filling_at), using(crate::proofs::Filling::fillers))]
fn filling_at(pool: Pool<'_>, index: u32) -> bool
    requires facts { Facts pool.sizes pool.words.now }
    requires there { index < pool.sizes.t }
    ensures { result ≡ filling_at pool.entry.sizes pool.entry.words.now index }
{
    let task = pool.raw_task(index);
    !task.stage.fills_block() || pool.raw_bump(task.target) == 0
}

// Where each task's own facts hold.
pub fn fillers_laid(pool: Pool<'_>) -> bool
    requires { Facts pool.sizes pool.words.now }
    ensures { result ≡ all_to (filling_at pool.entry.sizes pool.entry.words.now) pool.entry.sizes.t }
{
    all_below(pool.sizes.t, move |index| filling_at(pool, index))
}
