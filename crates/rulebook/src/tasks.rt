// Tasks, as the rule book changes them.
ghost use Rattle.std.specs.Prelude.{◌≡◌};
ghost use Rattle.rulebook.specs.State.{idle};
ghost use Rattle.rulebook.specs.Steps.{aimed, moved};

use super::{Hand, Stage, Task};

impl Task {
    /// A task with nothing to do.
    pub fn idle() -> Task
        ensures { result ≡ idle }
    {
        Task {
            stage: Stage::Idle,
            slot: 0,
            block: 0,
            number: 0,
            cell: 0,
            value: 0,
            until: 0,
            fresh: 0,
            target: 0,
            hand: Hand::of(0),
            steps: 0,
        }
    }

    /// The same task, at another stage, with another get in hand.
    #[tactic(auto, unfolding(crate::specs::Steps::moved))]
    pub fn moved(self, stage: Stage, hand: Hand) -> Task
        ensures { result ≡ moved self stage hand }
    {
        Task {
            stage,
            hand,
            ..self
        }
    }

    /// The task with the block that it has taken.
    #[tactic(auto, unfolding(crate::specs::Steps::aimed))]
    pub fn aimed(self, block: u32) -> Task
        ensures { result ≡ aimed self block }
    {
        Task {
            target: block,
            ..self
        }
    }
}
