// The get in hand, as the steps of a get change it.
ghost use Rattle.std.specs.Prelude.{◌≡◌, ◌<◌};
ghost use Rattle.rulebook.specs.State.{hand_of};
ghost use Rattle.rulebook.specs.Steps.{answer, guessed, middle, probed_at, searching};

use super::{Entry, Hand};

impl Hand {
    /// A get of the cell that has read nothing.
    pub fn of(cell: u32) -> Hand
        ensures { result ≡ hand_of cell }
    {
        Hand {
            cell,
            guess: 0,
            lo: 0,
            hi: 0,
            found: false,
            candidate: 0,
            version: 0,
        }
    }

    /// The get has read its guess.
    pub fn guessed(self, value: u32) -> Hand
        ensures { result ≡ guessed self value }
    {
        Hand {
            guess: value,
            ..Hand::of(self.cell)
        }
    }

    /// The get searches a log of so many entries.
    pub fn searching(self, entries: u32) -> Hand
        ensures { result ≡ searching self entries }
    {
        Hand {
            guess: self.guess,
            hi: entries,
            ..Hand::of(self.cell)
        }
    }

    /// The entry to probe: mid = lo + floor((hi - lo) / 2).
    pub fn middle(self) -> u32
        requires { self.lo < self.hi }
        ensures { result ≡ middle self }
    {
        self.lo + (self.hi - self.lo) / 2
    }

    /// One probe for the number: the entry is the candidate and hi = mid, or lo = mid + 1.
    pub fn probed(self, entry: Entry, number: u32) -> Hand
        requires { self.lo < self.hi }
        ensures { result ≡ probed_at (middle self) entry number self }
    {
        let mid = self.middle();
        if number <= entry.version {
            Hand {
                hi: mid,
                found: true,
                candidate: entry.old,
                version: entry.version,
                ..self
            }
        } else {
            Hand {
                lo: mid + 1,
                ..self
            }
        }
    }

    /// The candidate, or the guess if there is none.
    pub fn answer(self) -> u32
        ensures { result ≡ answer self }
    {
        if self.found {
            self.candidate
        } else {
            self.guess
        }
    }
}
