//! Three monitors: the greatest sample, the longest silence, and the first sound.

ghost use Rattle.std.specs.Prelude.{◌≡◌, ◌++◌, OnOk, None};
ghost use Rattle.exact_text.specs.Spellings.{Grows};
ghost use Rattle.monitors.specs.Meters.{first_line, peak_line, peak_meter, silence_line};
ghost use Rattle.monitors.specs.Meters.{silence_meter, sound_line, sound_meter};

use crate::{Monitor, Seen};
use io_caps::NoMemory;
use itoa::Buffer;

/// A level, and a claim that has it.
#[derive(Clone, Copy, Debug, PartialEq, Eq)]
struct Mark {
    level: u32,
    claim: u64,
}

/// Keeps the greatest absolute value of a sample, and the first claim that has it. It writes
/// `peak N at claim K`, with 0 and 0 before any packet, and is never finished.
#[derive(Debug, Drop)]
pub struct Peak {
    highest: Option<Mark>,
}

impl Peak {
    /// It has seen no packet.
    pub fn new() -> Peak
        ensures { ⟦<Peak as Monitor>⟧.meaning result ≡ peak_meter None }
    {
        Peak { highest: None }
    }
}

/// Appends the line of a peak. If memory runs out, what was there stays, and more may follow it.
#[tactic(auto, using(crate::proofs::growth), unfolding(crate::specs::Meters::peak_line))]
fn write_peak(mark: Mark, out: &mut Vec<u8>) -> Result<(), NoMemory>
    ensures ok { OnOk result (out.new.items ≡ out.old.items ++ peak_line mark) }
    ensures grows { Grows out.old.items out.new.items }
{
    out.extend_from_slice(b"peak ")?;
    out.extend_from_slice(Buffer::new().format(mark.level).as_bytes())?;
    out.extend_from_slice(b" at claim ")?;
    out.extend_from_slice(Buffer::new().format(mark.claim).as_bytes())?;
    out.extend_from_slice(b"\n")?;
    Ok(())
}

impl Monitor for Peak {
    ghost meaning = { λ s. peak_meter s.highest };

    fn see(&mut self, seen: &Seen) {
        let mark = Mark {
            level: seen.level(),
            claim: seen.claim,
        };
        self.highest = match self.highest {
            Some(highest) if mark.level <= highest.level => Some(highest),
            _ => Some(mark),
        };
    }

    fn finished(&self) -> bool {
        false
    }

    fn line(&self, out: &mut Vec<u8>) -> Result<(), NoMemory> {
        let nothing = Mark { level: 0, claim: 0 };
        write_peak(self.highest.unwrap_or(nothing), out)
    }
}

/// Keeps the longest run of silent packets one after the other, in packets, up to 2^64 - 1. It
/// writes `silence N`, and is never finished.
#[derive(Debug, Drop)]
pub struct SilenceRun {
    /// The longest run that has ended.
    longest: u64,
    /// The run that goes on.
    current: u64,
}

impl SilenceRun {
    /// It has seen no packet.
    pub fn new() -> SilenceRun
        ensures { ⟦<SilenceRun as Monitor>⟧.meaning result ≡ silence_meter 0 0 }
    {
        SilenceRun {
            longest: 0,
            current: 0,
        }
    }
}

impl Monitor for SilenceRun {
    ghost meaning = { λ s. silence_meter s.longest s.current };

    fn see(&mut self, seen: &Seen) {
        if seen.is_silent() {
            self.current = self.current.saturating_add(1);
        } else {
            self.longest = self.longest.max(self.current);
            self.current = 0;
        }
    }

    fn finished(&self) -> bool {
        false
    }

    fn line(&self, out: &mut Vec<u8>) -> Result<(), NoMemory> {
        write_silence(self.longest.max(self.current), out)
    }
}

/// Appends the line of a run of silence. If memory runs out, what was there stays, and more may
/// follow it.
#[tactic(auto, using(crate::proofs::growth), unfolding(crate::specs::Meters::silence_line))]
fn write_silence(run: u64, out: &mut Vec<u8>) -> Result<(), NoMemory>
    ensures ok { OnOk result (out.new.items ≡ out.old.items ++ silence_line run) }
    ensures grows { Grows out.old.items out.new.items }
{
    out.extend_from_slice(b"silence ")?;
    out.extend_from_slice(Buffer::new().format(run).as_bytes())?;
    out.extend_from_slice(b"\n")?;
    Ok(())
}

/// Keeps the first claim whose packet is not silent. It writes `first sound K`, or `no sound` where
/// there is none, and is finished once it has one.
#[derive(Debug, Drop)]
pub struct FirstChange {
    claim: Option<u64>,
}

impl FirstChange {
    /// It has seen no packet.
    pub fn new() -> FirstChange
        ensures { ⟦<FirstChange as Monitor>⟧.meaning result ≡ sound_meter None }
    {
        FirstChange { claim: None }
    }
}

impl Monitor for FirstChange {
    ghost meaning = { λ s. sound_meter s.claim };

    fn see(&mut self, seen: &Seen) {
        if self.claim.is_none() && !seen.is_silent() {
            self.claim = Some(seen.claim);
        }
    }

    fn finished(&self) -> bool {
        self.claim.is_some()
    }

    fn line(&self, out: &mut Vec<u8>) -> Result<(), NoMemory> {
        match self.claim {
            Some(claim) => write_sound(claim, out),
            None => write_no_sound(out),
        }
    }
}

/// Appends the line of a first sound. If memory runs out, what was there stays, and more may follow
/// it.
#[tactic(auto, using(crate::proofs::growth), unfolding(crate::specs::Meters::first_line))]
fn write_sound(claim: u64, out: &mut Vec<u8>) -> Result<(), NoMemory>
    ensures ok { OnOk result (out.new.items ≡ out.old.items ++ first_line claim) }
    ensures grows { Grows out.old.items out.new.items }
{
    out.extend_from_slice(b"first sound ")?;
    out.extend_from_slice(Buffer::new().format(claim).as_bytes())?;
    out.extend_from_slice(b"\n")?;
    Ok(())
}

/// Appends the line that says that there was no sound. If memory runs out, what was there stays.
#[tactic(auto, using(crate::proofs::growth))]
fn write_no_sound(out: &mut Vec<u8>) -> Result<(), NoMemory>
    ensures ok { OnOk result (out.new.items ≡ out.old.items ++ sound_line None) }
    ensures grows { Grows out.old.items out.new.items }
{
    out.extend_from_slice(b"no sound\n")?;
    Ok(())
}
