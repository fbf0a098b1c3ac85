// The exported functions as the programs call them: a call answers a `Result`, and a step says by an enum what it did.
#![tactic(auto)]

ghost use Rattle.std.specs.Prelude.{ℕ, ◌≡◌, ◌++◌, Some, codes};
ghost use Rattle.std.specs.Fmt.{decimal};
ghost use Rattle.std.specs.Fn.{FnOnceReturnsAtMut};
ghost use Rattle.client.specs.Answers.{no_words, answer_of, said_in};

use std::fmt;

/// The words that a call answers.
pub type Answer = [u32; 16];

/// A call that was refused, and the steps of the task that ended with it.
#[derive(Clone, Copy, Debug, PartialEq, Eq)]
pub struct Refused {
    pub number: u32,
    pub steps: u32,
}

impl fmt::Display for Refused {
    ghost output = { λ refused. Some (codes "refused " ++ decimal refused.number) };

    fn fmt<W: fmt::Write>(&self, f: &mut fmt::Formatter<W>) -> fmt::Result {
        let number = self.number;
        write!(f, "refused {number}")
    }
}

// What stands in an answer's words before the call: a word that the call leaves does not pass for a 0.
const UNWRITTEN: u32 = 4294967295;

/// Makes a call with room for its answer.
pub fn asked<F: FnOnce(&mut Answer) -> u32>(call: F) -> Result<Answer, Refused>
    requires { F.IsAlwaysCallable call }
    ensures { (number : ℕ) × (words : _) × FnOnceReturnsAtMut F.FnOnce call no_words number words × (result ≡ answer_of number words) }
{
    let mut answer = [UNWRITTEN; 16];
    match call(&mut answer) {
        0 => Ok(answer),
        number => Err(Refused {
            number,
            steps: answer[1],
        }),
    }
}

/// What an accepted step says.
#[derive(Clone, Copy, Debug, PartialEq, Eq)]
pub enum Said {
    Nothing,
    /// A page hands out a cell.
    Handed { cell: u32, value: u32 },
    /// A task has ended in a new handle.
    Made { steps: u32, handle: u32 },
    /// A get has ended, or a page with its last cell.
    Read { steps: u32, cell: u32, value: u32 },
}

impl From<Answer> for Said {
    ghost from_gives = { λ words said. said ≡ said_in words };

    fn from(words: Answer) -> Said {
        let [said, steps, handle, cell, value, ..] = words;
        match said {
            0 => Said::Nothing,
            1 => Said::Handed { cell, value },
            _ if handle == 0 => Said::Read { steps, cell, value },
            _ => Said::Made { steps, handle },
        }
    }
}
