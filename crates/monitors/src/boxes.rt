//! What a monitor is.

ghost use Rattle.std.specs.Prelude.{◌≡◌, List, [], ◌∷◌, ◌++◌, OnOk};
ghost use Rattle.exact_text.specs.Spellings.{Grows};
ghost use Rattle.monitors.specs.Lines.{Meaning};
ghost use Rattle.monitors.specs.declared.packets.Seen.{Seen};

use crate::Seen;
use io_caps::NoMemory;

/// One that sees packets, writes a line, and may be finished. What it is, is told by two functions
/// of any further packets: the line that it would write after them, and whether it would then be
/// finished.
pub trait Monitor: Drop {
    /// What it says after any further packets.
    ghost meaning: { Self → Meaning };

    /// Shows it a packet. From then on it says after any packets what it said before after this
    /// one and these.
    fn see(&mut self, seen: &Seen)
        ensures line { (more : List Seen)
            → (meaning self.new).line more ≡ (meaning self.old).line (seen.now ∷ more) }
        ensures finished { (more : List Seen)
            → (meaning self.new).is_finished more
            ≡ (meaning self.old).is_finished (seen.now ∷ more) };

    /// Whether it is finished.
    fn finished(&self) -> bool
        ensures { result ≡ (meaning self.now).is_finished [] };

    /// Appends its line. If memory runs out, what was there stays, and more may follow it.
    fn line(&self, out: &mut Vec<u8>) -> Result<(), NoMemory>
        ensures ok { OnOk result (out.new.items ≡ out.old.items ++ (meaning self.now).line []) }
        ensures grows { Grows out.old.items out.new.items };
}
