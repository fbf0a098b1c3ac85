// One call on the store and the same on the model.
ghost use Rattle.std.specs.Prelude.{◌<◌};
ghost use Rattle.orders.specs.declared.model.TheConstants.{MOST};

use super::draw::Drawn;
use super::model::{MOST, Model, Order, Refusal, Sizes, Version};
use super::tally::Tally;
use client::{Answer, Refused, Said, asked};
use winchclover::{
    winch_release, winch_start_get, winch_start_new, winch_start_page, winch_start_set, winch_step,
};

/// A store, the model beside it, and what was seen of both. Drop alone: it holds a `&mut`, which is not copied.
#[derive(Drop)]
pub struct Run<'a> {
    pool: &'a mut [u32],
    model: Model,
    pub tally: Tally,
}

impl<'a> Run<'a> {
    pub fn new(pool: &'a mut [u32], sizes: Sizes) -> Run<'a> {
        Run {
            pool,
            model: Model::new(sizes),
            tally: Tally::default(),
        }
    }

    fn ask(&mut self, task: u32, order: Order) -> Result<Answer, Refused> {
        asked(|answer| match order {
            Order::New { value } => winch_start_new(self.pool, task, value, answer),
            Order::Get { handle, cell } => winch_start_get(self.pool, task, handle, cell, answer),
            Order::Set {
                handle,
                cell,
                value,
            } => winch_start_set(self.pool, task, handle, cell, value, answer),
            Order::Page {
                handle,
                cell,
                count,
            } => winch_start_page(self.pool, task, handle, cell, count, answer),
        })
    }

    fn start(&mut self, task: u32, order: Order) {
        let due = self.model.may_start(task, order);
        let answered = self.ask(task, order);
        self.tally.judge(answered, due);
        if answered.is_ok() {
            if let Some(row) = self.model.tasks.get_mut(task as usize) {
                *row = Some(order);
            }
        }
    }

    // A new or a set has ended in this handle, whose last eight bits are its slot.
    fn make(&mut self, order: Order, handle: u32) {
        let table = self.model.making(order);
        let slot = self.model.versions.get_mut((handle % 256) as usize);
        match (slot, table) {
            (Some(slot), Some(table)) => *slot = Some(Version { handle, table }),
            _ => self.tally.expect(false),
        }
    }

    fn read(&mut self, order: Order, cell: u32, value: u32) {
        let due = self.model.reading(order);
        self.tally.compare((cell, value), due);
    }

    // What an accepted step says; what is left to do of its task's order.
    fn hear(&mut self, order: Order, said: Said) -> Option<Order> {
        self.tally.expect(order.may_say(said));
        match said {
            Said::Nothing => Some(order),
            Said::Handed { cell, value } => {
                self.read(order, cell, value);
                order.rest()
            }
            Said::Read { cell, value, .. } => {
                self.read(order, cell, value);
                None
            }
            Said::Made { handle, .. } => {
                self.make(order, handle);
                None
            }
        }
    }

    fn step(&mut self, task: u32)
        requires { task < MOST }
    {
        let answered = asked(|answer| winch_step(self.pool, task, answer));
        let row = task as usize;
        let Some(order) = self.model.tasks[row] else {
            self.tally.judge(answered, Err(Refusal::TaskIdle));
            return;
        };
        match answered {
            Ok(answer) => {
                self.tally.judge(answered, Ok(()));
                self.model.tasks[row] = self.hear(order, Said::from(answer));
                if self.model.tasks[row].is_none() {
                    self.tally.count_ended();
                }
            }
            // The model knows no blocks: it takes the store's word that none was free.
            Err(refused) if order.reserves() && refused.number == u32::from(Refusal::NoBlock) => {
                self.tally.judge(answered, Err(Refusal::NoBlock));
                self.model.tasks[row] = None;
            }
            Err(_) => self.tally.judge(answered, Ok(())),
        }
    }

    fn release(&mut self, slot: u32)
        requires { slot < MOST }
    {
        let handle = self.handle(slot);
        let due = self.model.may_release(handle);
        let answered = asked(|answer| winch_release(self.pool, handle, answer));
        self.tally.judge(answered, due);
        if due.is_ok() {
            self.model.versions[slot as usize] = None;
        }
    }

    // The slot's handle, or 0, which names none.
    fn handle(&self, slot: u32) -> u32
        requires { slot < MOST }
    {
        self.model.versions[slot as usize].map_or(0, |version| version.handle)
    }

    // An order, now and then one that is refused.
    fn draw(&self, drawn: Drawn) -> Order {
        let Sizes { cells, handles, .. } = self.model.sizes;
        let kind = drawn.next();
        let slot = kind.next();
        let place = slot.next();
        let last = place.next();
        let handle = self.handle(slot.below(handles));
        let cell = place.below(cells + 1);
        let value = last.upper();
        match kind.below(4) {
            0 => Order::New { value },
            1 => Order::Get { handle, cell },
            2 => Order::Set {
                handle,
                cell,
                value,
            },
            _ => Order::Page {
                handle,
                cell,
                count: last.below(6),
            },
        }
    }

    /// One call.
    pub fn turn(&mut self, drawn: Drawn) {
        let Sizes { handles, tasks, .. } = self.model.sizes;
        let next = drawn.next();
        match drawn.below(64) {
            0 => self.start(tasks, self.draw(next)),
            1..24 => self.start(next.below(tasks), self.draw(next)),
            24 => self.release(next.below(handles)),
            _ => self.step(next.below(tasks)),
        }
    }
}
