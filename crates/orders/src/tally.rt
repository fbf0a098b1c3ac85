// What was seen: how often, and how often the store and the model differed.
use super::model::Refusal;
use client::{Answer, Refused};
use std::fmt;

/// Counts of calls, of tasks that ended, of values compared, of differences, and of each refusal.
#[derive(Clone, Copy, Debug, Default)]
pub struct Tally {
    calls: u32,
    ended: u32,
    compared: u32,
    wrong: u32,
    refused: [u32; 16],
}

// No count of a run can wrap, so it needs no test: saturating_add asks for no proof of that.
fn count(counter: &mut u32) {
    *counter = counter.saturating_add(1);
}

impl Tally {
    pub fn count_ended(&mut self) {
        count(&mut self.ended);
    }

    /// The store and the model should be the same in this.
    pub fn expect(&mut self, same: bool) {
        if !same {
            count(&mut self.wrong);
        }
    }

    /// A call's answer beside the model's.
    pub fn judge(&mut self, answered: Result<Answer, Refused>, due: Result<(), Refusal>) {
        count(&mut self.calls);
        let number = answered.err().map(|refused| refused.number);
        self.expect(number == due.err().map(u32::from));
        if let Some(number) = number {
            if let Some(counter) = self.refused.get_mut(number as usize) {
                count(counter);
            }
        }
    }

    /// A cell and its value that were read beside the model's.
    pub fn compare(&mut self, read: (u32, u32), due: Option<(u32, u32)>) {
        count(&mut self.compared);
        self.expect(due == Some(read));
    }
}

impl fmt::Display for Tally {
    fn fmt<W: fmt::Write>(&self, f: &mut fmt::Formatter<W>) -> fmt::Result {
        let Tally {
            calls,
            ended,
            compared,
            wrong,
            refused,
        } = *self;
        writeln!(
            f,
            "  calls {calls}, tasks ended {ended}, values compared {compared}, wrong {wrong}"
        )?;
        write!(f, "  refused")?;
        let mut separator = "";
        // The numbers of `Refusal`.
        for number in 4..12usize {
            let count = refused[number];
            write!(f, "{separator} {number}: {count}")?;
            separator = ",";
        }
        Ok(())
    }
}
