// A test of each number below a count: of every slot, task or block, by its index.
ghost use Rattle.std.specs.Prelude.{◌≡◌, ◌<◌, ℕ, Bool};
ghost use Rattle.theorems.specs.Terms.{all_to};
ghost use Rattle.survey.specs.Decide.{some_to};

/// Whether the test holds of each of 0, .. count - 1.
#[tactic(auto, using(crate::proofs::Ways::loops))]
pub fn all_below<F: Fn(u32) -> bool>(count: u32, test: F) -> bool
    ghost says: { ℕ → Bool }
    requires may { (index : ℕ) → index < count → F.pre test index }
    requires gives { (index : ℕ) (b : Bool) → index < count → F.post test index b → b ≡ says index }
    ensures { result ≡ all_to says count }
{
    for index in 0..count {
        if !test(index) {
            return false;
        }
    }
    true
}

/// Whether the test holds of one of 0, .. count - 1.
#[tactic(auto, using(crate::proofs::Ways::loops))]
pub fn any_below<F: Fn(u32) -> bool>(count: u32, test: F) -> bool
    ghost says: { ℕ → Bool }
    requires may { (index : ℕ) → index < count → F.pre test index }
    requires gives { (index : ℕ) (b : Bool) → index < count → F.post test index b → b ≡ says index }
    ensures { result ≡ some_to says count }
{
    for index in 0..count {
        if test(index) {
            return true;
        }
    }
    false
}
