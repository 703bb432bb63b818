//! Values from outside: packets by hand, and the lines of monitors.

ghost use Rattle.std.specs.Prelude.{◌↔◌, ◌<◌, All, IsTrue};
ghost use Rattle.map_entry.specs.declared.claims.TheConstants.{CLAIMS_LIMIT};

use super::*;
use book_words::{ClaimItem, ClaimItems};
use io_caps::{
    Bytes, Device, DeviceParts, Flags, Inputs, Labels, NoMemory, Output, Outputs, Rate, Routable,
    Text, Width,
};
use map_entry::CLAIMS_LIMIT;
use std::alloc::Global;
use std::test::Fail;

/// The bytes of a head.
const HEAD: [u8; 12] = [0x80, 0x60, 0, 0, 0, 0, 0, 0, 0, 0, 0, 1];

fn text(alloc: Global, byte: u8) -> Result<Text, NoMemory> {
    let mut made = Text::new(alloc);
    made.push(byte)?;
    Ok(made)
}

fn output(alloc: Global, id: u8, width: Width) -> Result<Output, NoMemory> {
    let mut labels = Labels::new(alloc);
    labels.push(text(alloc, b'l')?)?;
    labels.push(text(alloc, b'r')?)?;
    Ok(Output {
        id: text(alloc, id)?,
        name: Text::new(alloc),
        description: Text::new(alloc),
        labels,
        width,
        payload_type: 96,
        ssrc: 1,
        source_id: None,
        routable: Routable::All,
    })
}

/// Two outputs of two channels, of L16 and of L24, with two frames a tick.
fn device(alloc: Global) -> Result<Device, Fail> {
    let mut outputs = Outputs::new(alloc);
    outputs.push(output(alloc, b'x', Width::L16)?)?;
    outputs.push(output(alloc, b'y', Width::L24)?)?;
    let parts = DeviceParts {
        rate: Rate {
            hz: 48000,
            frames: 2,
        },
        base: 7,
        hold: 1,
        inputs: Inputs::new(alloc),
        outputs,
    };
    match Device::build(alloc, parts) {
        Ok(device) => Ok(device),
        Err(_) => Err("a device".into()),
    }
}

/// The claims of these payloads, numbered from 0.
fn claims(alloc: Global, payloads: &[&[u8]]) -> Result<ClaimItems, NoMemory> {
    let mut made = ClaimItems::new(alloc);
    let mut k = 0u64;
    for payload in payloads {
        let mut packet = Vec::from_slice(alloc, &HEAD)?;
        packet.extend_from_slice(payload)?;
        made.push(ClaimItem::new(k, Flags::new(alloc), Bytes::from_vec(packet)))?;
        k = k.saturating_add(1);
    }
    Ok(made)
}

/// Whether the numbers of claims are below their limit.
fn are_below(claims: &[ClaimItem]) -> bool
    ensures { IsTrue result ↔ All (λ claim. claim.k < CLAIMS_LIMIT) claims.now }
{
    claims.iter().all(|claim| claim.k < CLAIMS_LIMIT)
}

/// One that is finished at once, and writes one byte.
#[derive(Debug, Drop)]
struct Letter {
    byte: u8,
}

impl Monitor for Letter {
    ghost use Rattle.std.specs.Prelude.{◌∷◌, [], true};
    ghost use Rattle.monitors.specs.Lines.{Meaning};

    ghost meaning = { λ s. record {
      line = λ packets. s.byte ∷ [];
      is_finished = λ packets. true;
    } };

    fn see(&mut self, seen: &Seen) {
        let _ = seen;
    }

    fn finished(&self) -> bool {
        true
    }

    fn line(&self, out: &mut Vec<u8>) -> Result<(), NoMemory> {
        out.push(self.byte)?;
        Ok(())
    }
}

/// The text that monitors write of these payloads.
fn walked(
    alloc: Global,
    list: Vec<Box<dyn Monitor + Send>>,
    payloads: &[&[u8]],
) -> Result<Vec<u8>, Fail> {
    let device = device(alloc)?;
    let claims = claims(alloc, payloads)?;
    if !are_below(claims.as_slice()) {
        return Err("claims".into());
    }
    let mut out = Vec::from_slice(alloc, b"> ")?;
    walk(alloc, list, &device, claims.as_slice(), &mut out)?;
    Ok(out)
}

/// Silence of L16 and of L24, two frames of two channels.
const SILENT: (&[u8], &[u8]) = (&[0; 8], &[0; 12]);

#[test]
fn meter_lines(rt: HostRuntime) -> Result<(), Fail> {
    let alloc = Global::new(rt.memory());
    let (x, y) = SILENT;
    let loud_x: &[u8] = &[0x11, 0x11, 0, 0, 0x33, 0x33, 0, 0];
    let loud_y: &[u8] = &[0x22, 0x22, 0, 0, 0, 0, 0x44, 0x44, 0, 0, 0, 0];
    let rows: [(&[&[u8]], &[u8]); 3] = [
        (&[], b"> peak 0 at claim 0\nsilence 0\nno sound\n"),
        (&[x, y, x, y], b"> peak 0 at claim 0\nsilence 4\nno sound\n"),
        (
            &[x, y, x, y, loud_x, loud_y],
            b"> first sound 4\npeak 4473856 at claim 5\nsilence 4\n",
        ),
    ];
    for (payloads, text) in rows {
        let mut list: Vec<Box<dyn Monitor + Send>> = Vec::new(alloc);
        list.push(Box::new(alloc, Peak::new())?)?;
        list.push(Box::new(alloc, SilenceRun::new())?)?;
        list.push(Box::new(alloc, FirstChange::new())?)?;
        let out = walked(alloc, list, payloads)?;
        assert_eq!(rt; out.as_slice(), text);
    }
    Ok(())
}

/// Some finish at once, and two at one packet.
#[test]
fn retiring(rt: HostRuntime) -> Result<(), Fail> {
    let alloc = Global::new(rt.memory());
    let (x, _) = SILENT;
    let loud_y: &[u8] = &[0, 0, 1, 0, 0, 0, 0xff, 0, 0, 0, 0, 0];
    let mut list: Vec<Box<dyn Monitor + Send>> = Vec::new(alloc);
    list.push(Box::new(alloc, FirstChange::new())?)?;
    list.push(Box::new(alloc, Letter { byte: b'a' })?)?;
    list.push(Box::new(alloc, Peak::new())?)?;
    list.push(Box::new(alloc, Letter { byte: b'b' })?)?;
    list.push(Box::new(alloc, FirstChange::new())?)?;
    let out = walked(alloc, list, &[x, loud_y, x])?;
    let text: &[u8] = b"> abfirst sound 1\nfirst sound 1\npeak 65536 at claim 1\n";
    assert_eq!(rt; out.as_slice(), text);
    let out = walked(alloc, Vec::new(alloc), &[x, loud_y])?;
    assert_eq!(rt; out.as_slice(), &b"> "[..]);
    Ok(())
}

#[test]
fn a_packet_seen(rt: HostRuntime) -> Result<(), Fail> {
    let alloc = Global::new(rt.memory());
    let device = device(alloc)?;
    let mut packet = Vec::from_slice(alloc, &HEAD)?;
    packet.extend_from_slice(&[0xff, 0xfe, 0x7f, 0xff, 0])?;
    let claim = ClaimItem::new(4, Flags::new(alloc), Bytes::from_vec(packet));
    let seen = Seen::new(alloc, &device, &claim)?;
    assert_eq!(rt; (seen.claim, seen.tick, seen.output), (4, 9, 0));
    assert_eq!(rt; seen.samples.as_slice(), &[-512, 8388352][..]);
    assert_eq!(rt; (seen.level(), seen.is_silent()), (8388352, false));
    Ok(())
}
