// Rule 2: the live handles.
ghost use Rattle.std.specs.Prelude.{◌≡◌, ◌<◌};
ghost use Rattle.survey.specs.Broken.{rule2_at, rule2};

use super::all_below;
use pool::Pool;

// The handle in the slot, if it is live, stands on a block of the pool, within that block's versions.
#[tactic(auto, unfolding(crate::specs::Broken::rule2_at), using(layout::specs::View::view_slot_at, crate::proofs::Ways::versions))]
fn stands_well(pool: Pool<'_>, slot: u32) -> bool
    requires { slot < pool.sizes.h }
    ensures { result ≡ rule2_at pool.entry.sizes pool.entry.words.now slot }
{
    let handle = pool.raw_slot(slot);
    if !handle.is_live() {
        return true;
    }
    if pool.sizes.b <= handle.block {
        return false;
    }
    let version = pool.raw_version(handle.block);
    handle.number <= version && handle.number <= pool.sizes.n && version <= pool.sizes.n + 1
}

/// Rule 2.
#[tactic(auto, unfolding(crate::specs::Broken::rule2))]
pub fn all_stand(pool: Pool<'_>) -> bool
    ensures { result ≡ rule2 pool.entry.sizes pool.entry.words.now }
{
    all_below(pool.sizes.h, move |slot| stands_well(pool, slot))
}
