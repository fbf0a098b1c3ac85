// The plain model: every live version has its whole table, and a set copies it.
ghost use Rattle.std.specs.Prelude.{◌<◌, ◌≤◌};
ghost use Rattle.orders.specs.declared.model.TheConstants.{MOST};

use client::Said;

/// The most tasks, slots and cells of the model.
pub const MOST: usize = 16;

/// The sizes of a store that the model has room for.
#[derive(Clone, Copy, Debug)]
pub struct Sizes {
    pub cells: u32,
    pub handles: u32,
    pub tasks: u32,
    pub ghost cells_fit: { cells ≤ MOST },
    pub ghost handles_fit: { (0 < handles) × (handles ≤ MOST) },
    pub ghost tasks_fit: { (0 < tasks) × (tasks ≤ MOST) },
}

/// Why a call is refused, with the numbers of the exported functions.
#[derive(Clone, Copy, Debug)]
pub enum Refusal {
    NoTask = 4,
    TaskBusy = 5,
    TaskIdle = 6,
    NoHandle = 7,
    NoCell = 8,
    NoSlot = 9,
    NoBlock = 10,
    InUse = 11,
}

impl From<Refusal> for u32 {
    fn from(refusal: Refusal) -> u32 {
        refusal as u32
    }
}

/// What a task is to do.
#[derive(Clone, Copy, Debug)]
pub enum Order {
    New { value: u32 },
    Get { handle: u32, cell: u32 },
    Set { handle: u32, cell: u32, value: u32 },
    /// Reads so many cells from `cell` on.
    Page { handle: u32, cell: u32, count: u32 },
}

impl Order {
    ghost use Rattle.std.specs.Prelude.{◌≡◌};
    ghost use Rattle.orders.specs.Says.{goes_on, may_say, reserves};

    /// The handle that it names.
    pub fn handle(self) -> Option<u32> {
        match self {
            Order::New { .. } => None,
            Order::Get { handle, .. } | Order::Set { handle, .. } | Order::Page { handle, .. } => {
                Some(handle)
            }
        }
    }

    /// Whether it reserves a slot for a new handle.
    pub fn reserves(self) -> bool
        ensures { result ≡ reserves self }
    {
        matches!(self, Order::New { .. } | Order::Set { .. })
    }

    // A page goes on after a cell that is not its last.
    fn goes_on(self) -> bool
        ensures { result ≡ goes_on self }
    {
        matches!(self, Order::Page { count, .. } if count > 1)
    }

    /// Whether a step may say this of it: where the task has ended, and where it goes on.
    pub fn may_say(self, said: Said) -> bool
        ensures { result ≡ may_say self said }
    {
        match said {
            Said::Nothing => true,
            Said::Handed { .. } => self.goes_on(),
            Said::Read { .. } => !self.reserves() && !self.goes_on(),
            Said::Made { .. } => self.reserves(),
        }
    }

    // Whether the cells that it names are among so many.
    fn is_within(self, cells: u32) -> bool {
        match self {
            Order::New { .. } => true,
            Order::Get { cell, .. } | Order::Set { cell, .. } => cell < cells,
            Order::Page { cell, count, .. } => {
                0 < count && count <= cells && cell <= cells - count
            }
        }
    }

    /// What is left of a page that has handed out a cell, but its last.
    pub fn rest(self) -> Option<Order> {
        match self {
            Order::Page {
                handle,
                cell,
                count,
            } if self.goes_on() => Some(Order::Page {
                handle,
                cell: cell.checked_add(1)?,
                count: count - 1,
            }),
            _ => None,
        }
    }
}

/// The values of a version's cells.
pub type Table = [u32; MOST];

/// A live version.
#[derive(Clone, Copy, Debug)]
pub struct Version {
    pub handle: u32,
    pub table: Table,
}

/// What each task is to do, where it is busy, and the version of each slot, where it is live.
#[derive(Clone, Copy, Debug)]
pub struct Model {
    pub sizes: Sizes,
    pub tasks: [Option<Order>; MOST],
    pub versions: [Option<Version>; MOST],
}

impl Model {
    pub fn new(sizes: Sizes) -> Model {
        Model {
            sizes,
            tasks: [None; MOST],
            versions: [None; MOST],
        }
    }

    fn table(&self, handle: u32) -> Option<Table> {
        let mut versions = self.versions.iter().flatten();
        let version = versions.find(|version| version.handle == handle)?;
        Some(version.table)
    }

    /// The cell that an order reads next, and its value.
    pub fn reading(&self, order: Order) -> Option<(u32, u32)> {
        match order {
            Order::Get { handle, cell } | Order::Page { handle, cell, .. } => {
                let value = self.table(handle)?.get(cell as usize).copied()?;
                Some((cell, value))
            }
            Order::New { .. } | Order::Set { .. } => None,
        }
    }

    /// The table that an order makes: the value in every cell, or a copy with one cell set.
    pub fn making(&self, order: Order) -> Option<Table> {
        match order {
            Order::New { value } => Some([value; MOST]),
            Order::Set {
                handle,
                cell,
                value,
            } => {
                let mut table = self.table(handle)?;
                *table.get_mut(cell as usize)? = value;
                Some(table)
            }
            Order::Get { .. } | Order::Page { .. } => None,
        }
    }

    // The slots that are live or reserved: at most MOST of each, so the sum needs no test, and saturating_add asks for no proof of that.
    fn slots_used(&self) -> usize {
        let live = self.versions.iter().flatten().count();
        let orders = self.tasks.iter().flatten();
        live.saturating_add(orders.filter(|order| order.reserves()).count())
    }

    fn is_in_use(&self, handle: u32) -> bool {
        let mut orders = self.tasks.iter().flatten();
        orders.any(|order| order.handle() == Some(handle))
    }

    fn is_live(&self, handle: u32) -> bool {
        self.table(handle).is_some()
    }

    /// What the rule book's table says of a start.
    pub fn may_start(&self, task: u32, order: Order) -> Result<(), Refusal> {
        if task >= self.sizes.tasks {
            return Err(Refusal::NoTask);
        }
        if self.tasks[task as usize].is_some() {
            return Err(Refusal::TaskBusy);
        }
        if order.handle().is_some_and(|handle| !self.is_live(handle)) {
            return Err(Refusal::NoHandle);
        }
        if !order.is_within(self.sizes.cells) {
            return Err(Refusal::NoCell);
        }
        if order.reserves() && self.slots_used() >= self.sizes.handles as usize {
            return Err(Refusal::NoSlot);
        }
        Ok(())
    }

    /// What it says of a release.
    pub fn may_release(&self, handle: u32) -> Result<(), Refusal> {
        if !self.is_live(handle) {
            return Err(Refusal::NoHandle);
        }
        if self.is_in_use(handle) {
            return Err(Refusal::InUse);
        }
        Ok(())
    }
}
