//! How both tables of a lap end.

ghost use Rattle.session_laps.specs.Laps.{AreBack, AreEnded};

use crate::lap::Workers;
use crate::room::Room;
use claim_word::{ClaimTable, ClientPasses, Publisher};
use input_cells::{FeedPasses, InputTable};

/// Ends both tables, once all passes are back. It takes no memory, and asks nothing of what was
/// claimed.
pub(crate) fn end_tables(
    table: ClaimTable,
    inputs: InputTable,
    publisher: Publisher,
    workers: Workers,
    feeds: FeedPasses,
    clients: ClientPasses,
    room: Room,
)
    requires { AreBack table inputs publisher workers feeds clients room }
    ensures { AreEnded table.plan inputs publisher workers feeds clients }
{
    let (passes, reads) = room.apart(workers);
    table.end(publisher, passes, clients);
    inputs.end(feeds, reads);
}
