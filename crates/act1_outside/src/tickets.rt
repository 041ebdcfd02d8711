ghost use Rattle.std.specs.Prelude.{◌≡◌, ◌∷◌, ◌++◌, [], ◌+◌, ◌-◌, ◌^◌, ◌<◌, All, OnOk, vec_len, vec_capacity};
ghost use Rattle.std.proofs.Props.{props};

use act1_base::Memory;
use std::alloc::Global;

/// The tickets of helpers: those that are open, and the next one, which is above them.
#[derive(Debug, Drop)]
pub struct Tickets {
    /// The open tickets, the oldest first.
    pub open_tickets: Vec<u64>,
    /// The next ticket.
    pub next: u64,
    /// The next ticket is above all open ones.
    pub ghost above: { All (λ ticket. ticket < next) open_tickets.items } by { Prim.hlevel props },
}

impl Tickets {
    ghost use Rattle.act1_outside.specs.Outside.{without};

    /// No ticket is open, and the next one is 0. It takes no memory.
    pub fn new(alloc: Global) -> Tickets
        ensures open_tickets { result.open_tickets.items ≡ [] }
        ensures next { result.next ≡ 0 }
    {
        Tickets {
            open_tickets: Vec::new(alloc),
            next: 0,
        }
    }

    /// Makes room for one open ticket more. The tickets are as they were.
    pub fn make_room(&mut self) -> Result<(), Memory>
        ensures room { OnOk result (vec_len self.new.open_tickets < vec_capacity self.new.open_tickets) }
        ensures open_tickets { self.new.open_tickets.items ≡ self.old.open_tickets.items }
        ensures next { self.new.next ≡ self.old.next }
    {
        self.open_tickets.reserve(1)?;
        Ok(())
    }

    /// Opens the next ticket, for which there is room.
    pub fn open_next(&mut self)
        requires room { vec_len self.old.open_tickets < vec_capacity self.old.open_tickets }
        requires next { self.old.next < 2 ^ 64 - 1 }
        ensures opens { self.new.open_tickets.items ≡ self.old.open_tickets.items ++ self.old.next ∷ [] }
        ensures raises { self.new.next ≡ self.old.next + 1 }
    {
        self.open_tickets.push_reserved(self.next);
        self.next += 1;
    }

    /// Closes a ticket. It takes no memory.
    pub fn close(&mut self, ticket: u64)
        ensures closes { self.new.open_tickets.items ≡ without ticket self.old.open_tickets.items }
        ensures next { self.new.next ≡ self.old.next }
    {
        self.open_tickets.retain(|other| *other != ticket);
    }
}
