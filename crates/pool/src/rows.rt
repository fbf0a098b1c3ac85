// Rows one after another: the first that decides, and how many do. A damaged row ends both.
ghost use Rattle.std.specs.Prelude.{◌≡◌, ℕ, ◌<◌, Result, Option};
ghost use Rattle.rulebook.specs.declared.Damaged.{Damaged};
ghost use Rattle.acts.specs.Looks.{count_of};
ghost use Rattle.acts.specs.Plans.{first_of};

use rulebook::Damaged;

/// What the first of so many rows finds that finds something.
#[tactic(auto, using(acts::proofs::Searches::first_of_zero, acts::proofs::Searches::first_of_none, acts::proofs::Searches::first_of_stops))]
pub fn first_row<F: Fn(u32) -> Result<Option<u32>, Damaged>>(
    rows: u32,
    row: F,
) -> Result<Option<u32>, Damaged>
    ghost seen: { ℕ → Result (Option ℕ) Damaged }
    requires may { (j : ℕ) → j < rows → F.pre row j }
    requires says { (j : ℕ) (x : Result (Option ℕ) Damaged) → j < rows → F.post row j x → x ≡ seen j }
    ensures { result ≡ first_of seen rows }
{
    for index in 0..rows {
        if let Some(found) = row(index)? {
            return Ok(Some(found));
        }
    }
    Ok(None)
}

/// How many of so many rows find something.
#[tactic(auto, using(acts::proofs::Searches::count_of_zero, acts::proofs::Searches::count_of_same, acts::proofs::Searches::count_of_more, acts::proofs::Searches::count_of_stops))]
pub fn count_rows<F: Fn(u32) -> Result<Option<u32>, Damaged>>(
    rows: u32,
    row: F,
) -> Result<u32, Damaged>
    ghost seen: { ℕ → Result (Option ℕ) Damaged }
    requires may { (j : ℕ) → j < rows → F.pre row j }
    requires says { (j : ℕ) (x : Result (Option ℕ) Damaged) → j < rows → F.post row j x → x ≡ seen j }
    ensures { result ≡ count_of seen rows }
{
    let mut count = 0;
    for index in 0..rows {
        if row(index)?.is_some() {
            count += 1;
        }
    }
    Ok(count)
}
