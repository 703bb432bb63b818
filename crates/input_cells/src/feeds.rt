//! What makes the passes.

ghost use Rattle.std.specs.Prelude.{◌≡◌, ◌+◌, ◌<◌, ◌↔◌, true, Some, None, IfOk, IsErr, OnErr, OnOk};
ghost use Rattle.std.specs.Prelude.{length, map, slice_get, slice_index_or, slice_set, false};
ghost use Rattle.input_cells.specs.Faces.{IsFeedOf, IsReadOf, IsUnfed, face_of, unread};

use crate::feed::FeedPass;
use crate::read::ReadPass;
use crate::table::InputTable;
use io_caps::NoSeat;
use std::marker::Model;

/// What makes the passes of a table, which were all laid out when it was started. Contracts see
/// which feeders' passes were given and how many readers' passes were made.
#[derive(Drop)]
pub struct Feeds {
    pub(crate) feeders: Vec<Option<FeedPass>>,
    pub(crate) readers: Vec<ReadPass>,
    /// A pass that is never given: it tells of which table this is.
    pub(crate) spare: ReadPass,
    pub(crate) most: u8,
}

impl Model for Feeds {
    ghost use Rattle.std.specs.Prelude.{◌-◌, length, map, is_none};
    ghost use Rattle.input_cells.specs.Faces.{AreFeeds, FeedsFace, face_of};

    ghost Value = { FeedsFace };

    ghost view = { λ f. record {
      table = map face_of f.spare;
      given = map is_none f.feeders.items;
      most = f.most;
      made = f.most - length f.readers.items;
    } };

    ghost invariant = { λ f.
        AreFeeds (map face_of f.spare) f.feeders.items f.readers.items f.spare f.most };
}

/// Takes a pass out of its place, where it is there.
fn take_pass(place: &mut Option<FeedPass>) -> Result<FeedPass, NoSeat>
    ensures ok { IfOk result (λ pass. place.old ≡ Some pass) }
    ensures err { OnErr result (place.old ≡ None) }
    ensures after { place.new ≡ None }
{
    match place.take() {
        Some(pass) => Ok(pass),
        None => Err(NoSeat),
    }
}

impl Feeds {
    /// The pass of the feeder of an input, or of the pace, whose number is the next one after the
    /// inputs. Refused exactly where it was given before.
    pub fn feed(&mut self, table: &InputTable, input: u8) -> Result<FeedPass, NoSeat>
        requires table { self.old.table ≡ table.now }
        requires input { input < length table.now }
        ensures err { IsErr result ↔ (slice_index_or self.old.given input false ≡ true) }
        ensures input { IfOk result (λ p. slice_get table.now input ≡ Some (face_of p)) }
        ensures pass { IfOk result (IsFeedOf table.now) }
        ensures unfed { IfOk result IsUnfed }
        ensures given { OnOk result
            (self.new ≡ record self.old { given = slice_set self.old.given input true }) }
        ensures kept { OnErr result (self.new ≡ self.old) }
    {
        take_pass(&mut self.feeders[input as usize])
    }

    /// A reader's pass that has seen nothing. Refused exactly where as many as the table was
    /// started with were made.
    pub fn reader(&mut self, table: &InputTable) -> Result<ReadPass, NoSeat>
        requires { self.old.table ≡ table.now }
        ensures err { IsErr result ↔ (self.old.made ≡ self.old.most) }
        ensures unread { IfOk result (λ p. p ≡ map unread table.now) }
        ensures pass { IfOk result (IsReadOf table.now) }
        ensures made { OnOk result (self.new ≡ record self.old { made = self.old.made + 1 }) }
        ensures kept { OnErr result (self.new ≡ self.old) }
    {
        match self.readers.pop() {
            Some(pass) => Ok(pass),
            None => Err(NoSeat),
        }
    }
}
