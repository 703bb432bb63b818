//! Monitors shown the packets of a history.

ghost use Rattle.std.specs.Prelude.{◌≡◌, ◌<◌, ◌++◌, [], ◌∷◌, All, List, OnOk, map};
ghost use Rattle.exact_text.specs.Spellings.{Grows};
ghost use Rattle.map_entry.specs.declared.claims.TheConstants.{CLAIMS_LIMIT};
ghost use Rattle.monitors.specs.Lines.{last_lines, lines_of, remaining, retired_lines};
ghost use Rattle.monitors.specs.Packets.{seen_of};
ghost use Rattle.monitors.specs.declared.packets.Seen.{Seen};

use crate::{Monitor, Seen};
use book_words::ClaimItem;
use io_caps::{Device, NoMemory};
use std::alloc::Global;

/// Shows a monitor a packet.
fn show(monitor: &mut Box<dyn Monitor + Send>, seen: &Seen)
    ensures line { (more : List Seen)
        → (meaning monitor.new).line more ≡ (meaning monitor.old).line (seen.now ∷ more) }
    ensures finished { (more : List Seen)
        → (meaning monitor.new).is_finished more
        ≡ (meaning monitor.old).is_finished (seen.now ∷ more) }
{
    monitor.see(seen);
}

/// Whether a monitor is finished.
fn is_finished(monitor: &Box<dyn Monitor + Send>) -> bool
    ensures { result ≡ (meaning monitor.now).is_finished [] }
{
    monitor.finished()
}

/// Appends the line of a monitor. If memory runs out, what was there stays, and more may follow it.
fn write_line(monitor: &Box<dyn Monitor + Send>, out: &mut Vec<u8>) -> Result<(), NoMemory>
    ensures ok { OnOk result (out.new.items ≡ out.old.items ++ (meaning monitor.now).line []) }
    ensures grows { Grows out.old.items out.new.items }
{
    monitor.line(out)
}

/// Shows all monitors a packet. Those that are then finished write their lines, in list order, and
/// are dropped. If memory runs out, what was there stays, and more may follow it.
#[tactic(auto, using(crate::proofs::growth))]
fn show_all(
    list: &mut Vec<Box<dyn Monitor + Send>>,
    seen: &Seen,
    out: &mut Vec<u8>,
) -> Result<(), NoMemory>
    ensures list { OnOk result (map (λ m. meaning m) list.new.items
        ≡ remaining seen.now (map (λ m. meaning m) list.old.items)) }
    ensures lines { OnOk result (out.new.items
        ≡ out.old.items ++ retired_lines seen.now (map (λ m. meaning m) list.old.items)) }
    ensures grows { Grows out.old.items out.new.items }
{
    let mut at = 0;
    while at < list.len() {
        show(&mut list[at], seen);
        if is_finished(&list[at]) {
            write_line(&list.remove(at), out)?;
        } else {
            at += 1;
        }
    }
    Ok(())
}

/// Appends the lines of all monitors, in list order. If memory runs out, what was there stays, and
/// more may follow it.
#[tactic(auto, using(crate::proofs::growth))]
fn write_lines(list: &[Box<dyn Monitor + Send>], out: &mut Vec<u8>) -> Result<(), NoMemory>
    ensures ok { OnOk result
        (out.new.items ≡ out.old.items ++ last_lines (map (λ m. meaning m) list.now)) }
    ensures grows { Grows out.old.items out.new.items }
{
    for monitor in list {
        write_line(monitor, out)?;
    }
    Ok(())
}

/// Shows each monitor the packets of claims, in their order. One that is finished after a packet
/// has its line appended to `out`, and is dropped before the next packet. At the end the lines of
/// the others follow in list order. If memory runs out, what stood in `out` stays, and more may
/// follow it. The list is dropped either way.
#[tactic(auto, using(crate::proofs::growth))]
pub fn walk(
    alloc: Global,
    list: Vec<Box<dyn Monitor + Send>>,
    device: &Device,
    claims: &[ClaimItem],
    out: &mut Vec<u8>,
) -> Result<(), NoMemory>
    requires { All (λ claim. claim.k < CLAIMS_LIMIT) claims.now }
    ensures ok { OnOk result (out.new.items ≡ out.old.items
        ++ lines_of (map (λ m. meaning m) list.items) (map (seen_of device.now) claims.now)) }
    ensures grows { Grows out.old.items out.new.items }
{
    let mut list = list;
    for claim in claims {
        if list.is_empty() {
            return Ok(());
        }
        let seen = Seen::new(alloc, device, claim)?;
        show_all(&mut list, &seen, out)?;
    }
    write_lines(&list, out)
}
