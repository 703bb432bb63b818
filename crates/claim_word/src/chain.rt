//! The chains by which a pass finds the entry that rules: on each output from the entry that ruled
//! last to the next one that takes effect, and so on. So no claim looks at all entries.

ghost use Rattle.std.specs.Prelude.{ℕ, ◌≡◌, ◌≢◌, ◌+◌, ◌*◌, ◌^◌, ◌<◌, ◌≤◌, [], ◌∷◌, ◌++◌};
ghost use Rattle.std.specs.Prelude.{◌&&◌, cond, eqb, length, not, nat_lt, replicate, vec_len};
ghost use Rattle.std.specs.Prelude.{vec_capacity, IfSome, IfNone, IfOk, IsSomeAnd, None};
ghost use Rattle.std.specs.List.{All};
ghost use Rattle.map_entry.specs.declared.entry.Entry.{Entry as EntryValue};
ghost use Rattle.map_entry.specs.Tick.{frame_key};
ghost use Rattle.claim_rule.specs.Words.{places};
ghost use Rattle.claim_word.specs.Chains.{due_at, head_at, head_due, next_at, output_at, track_at};
ghost use Rattle.claim_word.specs.Chains.{HasPassed, HavePassed, IsBare, IsChain, IsChained};
ghost use Rattle.claim_word.specs.Chains.{IsFirstDue, IsRuling, IsTrack};
ghost use Rattle.claim_word.specs.Claims.{head_of};

use io_caps::NoMemory;
use io_caps::limits::PLACES;
use map_entry::has_come;
use std::alloc::Global;

/// What the first two words of an entry tell.
#[derive(Clone, Copy, Debug)]
pub(crate) struct Head {
    pub output: u8,
    pub tick: u64,
    pub offset: u16,
}

impl Head {
    /// The head that two words spell.
    pub fn of(first: u64, second: u64) -> Head
        ensures { (e : EntryValue) → e.output < 2 ^ 6 → e.offset < 2 ^ 8
            → first ≡ e.tick * 2 ^ 6 + e.output → second ≡ e.at * 2 ^ 8 + e.offset
            → result ≡ head_of e }
    {
        Head {
            output: (first % (1 << 6)) as u8,
            tick: first / (1 << 6),
            offset: (second % (1 << 8)) as u16,
        }
    }

    /// Whether its entry has taken effect at a frame of a tick.
    fn has_come(&self, tick: u64, frame: u16) -> bool
        ensures { result ≡ not (nat_lt (frame_key tick frame) (head_due self.now)) }
    {
        has_come(self.tick, self.offset, tick, frame)
    }

    /// The frame from which its entry counts, if that is one of a number of a tick; else how many
    /// there are.
    fn frame_of(&self, tick: u64, frames: u16) -> u16
        ensures short { self.now.offset < 2 ^ 16 }
        ensures value { result ≡ cond (eqb self.now.tick tick && nat_lt self.now.offset frames)
            self.now.offset frames }
    {
        let offset = self.offset;
        if self.tick == tick && offset < frames {
            offset
        } else {
            frames
        }
    }
}

/// The chain of an output.
#[derive(Clone, Copy, Debug)]
pub(crate) struct Track {
    /// The place of the entry with which it begins: the one that ruled last.
    pub at: u16,
    /// The place of the newest entry, with which it ends.
    pub newest: u16,
}

/// The chains of all outputs.
#[derive(Drop)]
pub(crate) struct Chains {
    /// For each entry the place of the next one on its output.
    pub next: Vec<Option<u16>>,
    /// For each output its chain, if it has an entry.
    pub tracks: Vec<Option<Track>>,
}

impl Chains {
    /// The chains of the given number of outputs without entries; the room for all is taken.
    pub fn new(alloc: Global, outputs: usize) -> Result<Chains, NoMemory>
        ensures next { IfOk result (λ c. (c.next.items ≡ []) × (places ≤ vec_capacity c.next)) }
        ensures tracks { IfOk result (λ c. c.tracks.items ≡ replicate outputs None) }
    {
        Ok(Chains {
            next: Vec::with_capacity(alloc, PLACES as usize)?,
            tracks: vec![in alloc; None; outputs]?,
        })
    }

    /// Links the entries that are not linked yet.
    pub fn link_all(&mut self, heads: &[Head])
        requires few { length heads.now ≤ places }
        requires within { All (λ h. h.output < length self.old.tracks.items) heads.now }
        requires chained { IsChained heads.now (length self.old.tracks.items) self.old }
        ensures all { vec_len self.new.next ≡ length heads.now }
        ensures chained { IsChained heads.now (length self.old.tracks.items) self.new }
        ensures passed { (reached : ℕ) → HavePassed heads.now reached self.old.tracks.items
            → HavePassed heads.now reached self.new.tracks.items }
    {
        while self.next.len() < heads.len() {
            self.link(heads);
        }
    }

    /// Links the next entry.
    fn link(&mut self, heads: &[Head])
        requires few { length heads.now ≤ places }
        requires more { vec_len self.old.next < length heads.now }
        requires within { All (λ h. h.output < length self.old.tracks.items) heads.now }
        requires chained { IsChained heads.now (length self.old.tracks.items) self.old }
        ensures more { vec_len self.new.next ≡ vec_len self.old.next + 1 }
        ensures chained { IsChained heads.now (length self.old.tracks.items) self.new }
        ensures passed { (reached : ℕ) → HavePassed heads.now reached self.old.tracks.items
            → HavePassed heads.now reached self.new.tracks.items }
    {
        let place = self.next.len();
        let output = heads[place].output as usize;
        let at = link_at(heads, self.next.as_mut_slice(), self.tracks[output]);
        self.next.push_reserved(None);
        self.tracks[output] = Some(Track {
            at,
            newest: place as u16,
        });
    }

    /// The place of the entry that rules an output at a frame of a tick. The chain goes on from the
    /// one that rules the tick's first frame.
    pub fn ruling(&mut self, heads: &[Head], output: u8, tick: u64, frame: u16) -> usize
        requires few { length heads.now ≤ places }
        requires all { vec_len self.old.next ≡ length heads.now }
        requires output { output < length self.old.tracks.items }
        requires chained { IsChained heads.now (length self.old.tracks.items) self.old }
        requires begun { IsSomeAnd (track_at self.old.tracks.items output)
            (λ t. due_at heads.now t.at ≤ frame_key tick 0) }
        ensures next { self.new.next ≡ self.old.next }
        ensures chained { IsChained heads.now (length self.old.tracks.items) self.new }
        ensures passed { HavePassed heads.now (frame_key tick 0) self.old.tracks.items
            → HavePassed heads.now (frame_key tick 0) self.new.tracks.items }
        ensures chain { IsChain heads.now (length heads.now) self.new.next.items result }
        ensures rules { IsRuling heads.now (length heads.now) (frame_key tick frame) output result }
    {
        let Some(track) = self.tracks[output as usize] else {
            unreachable!()
        };
        let at = last_by(heads, self.next.as_slice(), track.at, tick, 0);
        self.tracks[output as usize] = Some(Track {
            at,
            newest: track.newest,
        });
        last_by(heads, self.next.as_slice(), at, tick, frame) as usize
    }

    /// After a frame of a tick, of the given number, the first at which an entry further on than
    /// the one that rules takes effect; as many as there are, where there is none.
    pub fn upto(&self, heads: &[Head], place: usize, tick: u64, frame: u16, frames: u16) -> u16
        requires frame { frame < frames }
        requires all { vec_len self.now.next ≡ length heads.now }
        requires chain { IsChain heads.now (length heads.now) self.now.next.items place }
        requires rules { IsRuling heads.now (length heads.now) (frame_key tick frame)
            (output_at heads.now place) place }
        ensures { IsFirstDue heads.now tick frame frames result place }
    {
        match self.next[place] {
            Some(later) => heads[later as usize].frame_of(tick, frames),
            None => frames,
        }
    }
}

/// The place of the entry to which one leads, if it has taken effect at a frame of a tick.
fn next_by(heads: &[Head], next: &[Option<u16>], place: u16, tick: u64, frame: u16) -> Option<u16>
    requires few { length next.now ≤ length heads.now }
    requires there { place < length next.now }
    requires next { IfSome (next_at next.now place) (λ k. k < length next.now) }
    ensures some { IfSome result (λ k. (next_at next.now place ≡ Some k)
        × (due_at heads.now k ≤ frame_key tick frame)) }
    ensures none { IfNone result
        (IfSome (next_at next.now place) (λ k. frame_key tick frame < due_at heads.now k)) }
{
    let later = next[place as usize]?;
    if heads[later as usize].has_come(tick, frame) {
        Some(later)
    } else {
        None
    }
}

/// The place of the last entry of a chain that has taken effect at a frame of a tick, where the
/// first has.
fn last_by(heads: &[Head], next: &[Option<u16>], from: u16, tick: u64, frame: u16) -> u16
    requires few { length next.now ≤ length heads.now }
    requires chain { IsChain heads.now (length next.now) next.now from }
    requires come { due_at heads.now from ≤ frame_key tick frame }
    ensures after { from ≤ result }
    ensures chain { IsChain heads.now (length next.now) next.now result }
    ensures last { IsRuling heads.now (length next.now) (frame_key tick frame)
        (output_at heads.now from) result }
{
    let mut place = from;
    while let Some(later) = next_by(heads, next, place, tick, frame) {
        place = later;
    }
    place
}

/// The place of the last entry of a chain that takes effect no later than the entry to be linked,
/// unless all do.
fn place_before(heads: &[Head], next: &[Option<u16>], track: &Track) -> Option<u16>
    requires more { length next.now < length heads.now }
    requires track { IsTrack heads.now (length next.now) next.now
        (output_at heads.now (length next.now)) track.now }
    ensures after { IfSome result (λ k. track.now.at ≤ k) }
    ensures last { IfSome result (IsRuling heads.now (length next.now)
        (due_at heads.now (length next.now)) (output_at heads.now (length next.now))) }
    ensures none { IfNone result
        (due_at heads.now (length next.now) < due_at heads.now track.now.at) }
{
    let Head {
        output: _,
        tick,
        offset,
    } = heads[next.len()];
    if heads[track.newest as usize].has_come(tick, offset) {
        return Some(track.newest);
    }
    if heads[track.at as usize].has_come(tick, offset) {
        return Some(last_by(heads, next, track.at, tick, offset));
    }
    None
}

/// Links the next entry to the chain of its output, and answers where the chain begins then.
fn link_at(heads: &[Head], next: &mut [Option<u16>], track: Option<Track>) -> u16
    requires few { length heads.now ≤ places }
    requires more { length next.old < length heads.now }
    requires track { IfSome track (IsTrack heads.now (length next.old) next.old
        (output_at heads.now (length next.old))) }
    requires bare { IfNone track (IsBare heads.now (length next.old)
        (output_at heads.now (length next.old))) }
    ensures long { length next.new ≡ length next.old }
    ensures others { (k : ℕ)
        → output_at heads.now k ≢ output_at heads.now (length next.old)
        → next_at next.new k ≡ next_at next.old k }
    ensures track { IsTrack heads.now (length next.old + 1) (next.new ++ None ∷ [])
        (output_at heads.now (length next.old))
        (record { at = result; newest = length next.old }) }
    ensures passed { (reached : ℕ)
        → IfSome track (λ t. HasPassed heads.now reached
        (output_at heads.now (length next.old)) t.at)
        → HasPassed heads.now reached (output_at heads.now (length next.old)) result }
{
    let place = next.len();
    if let Some(track) = track {
        if let Some(before) = place_before(heads, next, &track) {
            next[before as usize] = Some(place as u16);
            return track.at;
        }
    }
    place as u16
}
