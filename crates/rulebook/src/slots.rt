// Slots, and what a slot is.
ghost use Rattle.std.specs.Prelude.{◌≡◌, ◌↔◌, IsTrue};
ghost use Rattle.rulebook.specs.State.{freed, is_free, is_live};
ghost use Rattle.rulebook.specs.declared.Status.TheVariants as status;

use super::{Slot, Status};

impl Slot {
    /// A free slot that has carried so many handles.
    pub fn free(serial: u32) -> Slot
        ensures { result ≡ freed serial }
    {
        Slot {
            serial,
            status: Status::Free,
            block: 0,
            number: 0,
        }
    }

    /// A slot that a task has reserved.
    pub fn reserved(serial: u32) -> Slot
        ensures { result ≡ record { serial = serial; status = status.Reserved; block = 0; number = 0 } }
    {
        Slot {
            status: Status::Reserved,
            ..Slot::free(serial)
        }
    }

    /// It carries a live handle.
    pub fn is_live(self) -> bool
        ensures { result ≡ is_live self.status }
    {
        self.status == Status::Live
    }

    /// It may be reserved, while its serial is not spent.
    pub fn is_free(self) -> bool
        ensures { result ≡ is_free self.status }
    {
        self.status == Status::Free
    }

    /// A task has reserved it.
    pub fn is_reserved(self) -> bool
        ensures { IsTrue result ↔ (self.status ≡ status.Reserved) }
    {
        self.status == Status::Reserved
    }
}
