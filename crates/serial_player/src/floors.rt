//! From where clients go on.

ghost use Rattle.std.specs.Prelude.{◌≡◌, ◌<◌, IfOk, length, replicate, slice_set};
ghost use Rattle.io_caps.specs.declared.limits.TheConstants.{CLIENTS};
ghost use Rattle.interleavings.specs.Legal.{first_floor};
ghost use Rattle.serial_player.specs.Run.{floor_at};

use io_caps::NoMemory;
use io_caps::limits::CLIENTS;
use plain_book::Stamp;
use std::alloc::Global;

/// Of each client, by its number, the place from which it goes on.
#[derive(Debug, Drop)]
pub(crate) struct Floors {
    places: Vec<Stamp>,
}

impl Floors {
    /// The floors of clients of whom nothing came yet.
    pub(crate) fn new(alloc: Global) -> Result<Floors, NoMemory>
        ensures { IfOk result (λ made. made.places.items ≡ replicate CLIENTS first_floor) }
    {
        let start = Stamp {
            calls: 0,
            claims: 0,
        };
        Ok(Floors {
            places: vec![in alloc; start; CLIENTS as usize]?,
        })
    }

    /// From where a client goes on.
    pub(crate) fn of(&self, client: u8) -> Stamp
        requires { client < length self.now.places.items }
        ensures { result ≡ floor_at self.now client }
    {
        self.places[client as usize]
    }

    /// Lets a client go on from a place.
    pub(crate) fn go_on(&mut self, client: u8, place: Stamp)
        requires { client < length self.old.places.items }
        ensures { self.new.places.items ≡ slice_set self.old.places.items client place }
    {
        self.places[client as usize] = place;
    }
}
