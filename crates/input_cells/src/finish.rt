//! The end of a table, at which what each reader saw is compared with what the feeders set.

ghost use Rattle.std.specs.Prelude.{◌≡◌, ℕ, map};
ghost use Rattle.std.specs.List.{All};
ghost use Rattle.io_caps.specs.declared.device.DeviceParts.{DeviceParts};
ghost use Rattle.input_cells.specs.Agreement.{Agrees, AreTrueOf, blocks_set};
ghost use Rattle.input_cells.specs.Faces.{IsReadOf, SameWords, face_of, heard_of, looks_of};
ghost use Rattle.input_cells.specs.Shapes.{IsTableOf};

use crate::feed::FeedPass;
use crate::one::OneInput;
use crate::read::ReadPass;
use crate::table::InputTable;
use crate::{FeedPasses, ReadPasses};

/// The feeders take in what a reader knows, and learn that it is true of their words.
fn confirm(inputs: &[OneInput], feeds: &mut Vec<FeedPass>, reader: ReadPass)
    requires feeds { map face_of feeds.old.items ≡ inputs.now }
    requires reader { IsReadOf inputs.now reader }
    ensures same { SameWords feeds.old.items feeds.new.items }
    ensures fits { AreTrueOf feeds.old.items reader }
{
    let ReadPass { mut seats } = reader;
    while let Some(seat) = seats.pop() {
        let input = seats.len();
        feeds[input].confirm(&inputs[input], seat);
    }
}

impl InputTable {
    /// Ends the table, which takes no memory. The feeders' passes are those of the inputs, by their
    /// numbers, and the pace's. What each reader saw agrees with the blocks set: a block that it
    /// saw was set, a sample that it read is the one of the block, and where it found no block
    /// after it had seen a closing number above the tick, none was set. It is true of the feeders'
    /// last words too: no number after which it looked is above the one at which its feeder stands.
    pub fn end(self, feeds: FeedPasses, readers: ReadPasses)
        requires feeds { map face_of feeds ≡ self }
        requires readers { All (IsReadOf self) readers }
        ensures agree { (d : DeviceParts) (from ticks : ℕ) → IsTableOf d from ticks self
            → All (λ r. Agrees d (looks_of r) (heard_of r) (blocks_set feeds)) readers }
        ensures words { All (AreTrueOf feeds) readers }
    {
        let mut feeds = feeds.into_vec();
        let mut readers = readers.into_vec();
        while let Some(reader) = readers.pop() {
            confirm(self.inputs.as_slice(), &mut feeds, reader);
        }
    }
}
