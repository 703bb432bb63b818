use super::*;
use std::alloc::Global;
use std::test::Fail;

/// An input or output: its id, how many channels, its payload type, and its block size or the last
/// input that it lists.
type Port = (&'static str, usize, u8, u8);

const A: Port = ("a", 2, 96, 1);

const X: Port = ("x", 2, 96, 0);

const RATE: Rate = Rate {
    hz: 48000,
    frames: 48,
};

fn text(alloc: Global, text: &str) -> Result<Text, NoMemory> {
    let mut made = Text::new(alloc);
    for byte in text.as_bytes() {
        made.push(*byte)?;
    }
    Ok(made)
}

fn labels(alloc: Global, channels: usize) -> Result<Labels, NoMemory> {
    let mut made = Labels::new(alloc);
    for _ in 0..channels {
        made.push(Text::new(alloc))?;
    }
    Ok(made)
}

fn choices(alloc: Global, input: u8) -> Result<Routable, NoMemory> {
    let mut made = Choices::new(alloc);
    made.push(None)?;
    made.push(Some(input))?;
    Ok(Routable::Only(made))
}

fn input(alloc: Global, port: Port) -> Result<Input, NoMemory> {
    Ok(Input {
        id: text(alloc, port.0)?,
        name: Text::new(alloc),
        description: Text::new(alloc),
        labels: labels(alloc, port.1)?,
        width: Width::L24,
        payload_type: port.2,
        block_size: port.3,
        reordering: true,
        parent: Parent::Nobody,
    })
}

fn output(alloc: Global, port: Port) -> Result<Output, NoMemory> {
    Ok(Output {
        id: text(alloc, port.0)?,
        name: Text::new(alloc),
        description: Text::new(alloc),
        labels: labels(alloc, port.1)?,
        width: Width::L24,
        payload_type: port.2,
        ssrc: 7,
        source_id: Some(5),
        routable: choices(alloc, port.3)?,
    })
}

fn inputs(alloc: Global, ports: &[Port]) -> Result<Inputs, NoMemory> {
    let mut made = Inputs::new(alloc);
    for port in ports {
        made.push(input(alloc, *port)?)?;
    }
    Ok(made)
}

fn outputs(alloc: Global, ports: &[Port]) -> Result<Outputs, NoMemory> {
    let mut made = Outputs::new(alloc);
    for port in ports {
        made.push(output(alloc, *port)?)?;
    }
    Ok(made)
}

/// Builds a device of these parts and copies it: the fault, where there is one.
fn fault(
    alloc: Global,
    numbers: (Rate, u64, u8),
    sources: &[Port],
    targets: &[Port],
) -> Result<Option<DeviceFault>, NoMemory> {
    let parts = DeviceParts {
        rate: numbers.0,
        base: numbers.1,
        hold: numbers.2,
        inputs: inputs(alloc, sources)?,
        outputs: outputs(alloc, targets)?,
    };
    match Device::build(alloc, parts) {
        Ok(device) => {
            device.copy()?;
            Ok(None)
        }
        Err(Or::Fault(fault)) => Ok(Some(fault)),
        Err(Or::NoMemory) => Err(NoMemory),
    }
}

fn ports_fault(
    alloc: Global,
    sources: &[Port],
    targets: &[Port],
) -> Result<Option<DeviceFault>, NoMemory> {
    fault(alloc, (RATE, 0, 1), sources, targets)
}

#[test]
fn payload_limits(rt: HostRuntime) -> Result<(), Fail> {
    let alloc = rt.alloc();
    let short = Rate {
        hz: 48000,
        frames: 6,
    };
    assert_eq!(rt; ports_fault(alloc, &[A], &[("x", 8, 96, 0)])?, None);
    assert_eq!(rt;
        ports_fault(alloc, &[A], &[("x", 16, 96, 0)])?,
        Some(DeviceFault::Payload(0))
    );
    assert_eq!(rt;
        fault(alloc, (short, 0, 1), &[A], &[("x", 64, 96, 0)])?,
        None
    );
    Ok(())
}

#[test]
fn refused_numbers(rt: HostRuntime) -> Result<(), Fail> {
    let alloc = rt.alloc();
    let other = Rate {
        hz: 48001,
        frames: 48,
    };
    // The end of time is the tick 48000 * 2^40 / 48.
    let last = (1000 << 40) - (1 << 23) - 1;
    for (numbers, want) in [
        ((RATE, last, 64), None),
        ((other, 0, 1), Some(DeviceFault::Rate)),
        ((RATE, last + 1, 1), Some(DeviceFault::Base)),
        ((RATE, 0, 65), Some(DeviceFault::Hold)),
    ] {
        assert_eq!(rt; fault(alloc, numbers, &[A], &[X])?, want);
    }
    Ok(())
}

#[test]
fn refused_counts(rt: HostRuntime) -> Result<(), Fail> {
    let alloc = rt.alloc();
    assert_eq!(rt; ports_fault(alloc, &[A], &[])?, Some(DeviceFault::NoOutput));
    assert_eq!(rt;
        ports_fault(alloc, &[A; 17], &[X])?,
        Some(DeviceFault::ManyInputs)
    );
    assert_eq!(rt;
        ports_fault(alloc, &[A], &[X; 65])?,
        Some(DeviceFault::ManyOutputs)
    );
    let many = [("a", 64, 96, 1), ("b", 64, 96, 1), ("c", 1, 96, 1)];
    assert_eq!(rt;
        ports_fault(alloc, &many, &[X])?,
        Some(DeviceFault::ManyChannels)
    );
    Ok(())
}

#[test]
fn refused_ports(rt: HostRuntime) -> Result<(), Fail> {
    let alloc = rt.alloc();
    for (port, want) in [
        (("a b", 2, 96, 1), DeviceFault::Id(Slot::Source(1))),
        (("a", 2, 96, 1), DeviceFault::DoubleId(Slot::Source(1))),
        (("b", 65, 96, 1), DeviceFault::Channels(Slot::Source(1))),
        (("b", 2, 128, 1), DeviceFault::PayloadType(Slot::Source(1))),
        (("b", 2, 96, 3), DeviceFault::Block(1)),
    ] {
        assert_eq!(rt; ports_fault(alloc, &[A, port], &[X])?, Some(want));
    }
    for (port, want) in [
        (("", 2, 96, 0), DeviceFault::Id(Slot::Target(1))),
        (("x", 2, 96, 0), DeviceFault::DoubleId(Slot::Target(1))),
        (("y", 0, 96, 0), DeviceFault::Channels(Slot::Target(1))),
        (("y", 2, 128, 0), DeviceFault::PayloadType(Slot::Target(1))),
        (("y", 2, 96, 1), DeviceFault::Unknown(1)),
    ] {
        assert_eq!(rt; ports_fault(alloc, &[A], &[X, port])?, Some(want));
    }
    Ok(())
}

#[test]
fn lists(rt: HostRuntime) -> Result<(), Fail> {
    let mut bytes = Bytes::from_vec(Vec::from_array(rt.alloc(), [7, 8, 9])?);
    bytes.set(0, 6);
    bytes.truncate(2);
    let bytes = bytes.copy()?;
    assert_eq!(rt; bytes.len(), 2);
    assert_eq!(rt; bytes.get(0).copied(), Some(6));
    assert!(rt; bytes.get(2).is_none());
    assert_eq!(rt; bytes.into_vec().len(), 2);
    Ok(())
}

/// Whether a value has a copy, and it is equal.
fn is_copied<T: TryCopy + PartialEq>(value: T) -> Result<bool, NoMemory> {
    Ok(value.copy()? == value)
}

#[test]
fn numbers_copied(rt: HostRuntime) -> Result<(), Fail> {
    assert!(rt; is_copied(255u8)?);
    assert!(rt; is_copied(1u32 << 31)?);
    assert!(rt; is_copied(-8_388_608i32)?);
    assert!(rt; is_copied(1u64 << 63)?);
    assert!(rt; is_copied(1u128 << 127)?);
    assert!(rt; is_copied(true)?);
    assert!(rt; is_copied(Some(7u8))?);
    assert!(rt; matches!((7u8, false).copy()?, (7, false)));
    Ok(())
}

#[test]
fn parts_copied(rt: HostRuntime) -> Result<(), Fail> {
    assert!(rt; is_copied(RATE)?);
    assert!(rt; is_copied(Width::L24)?);
    assert!(rt; is_copied(Parent::Receiver(9))?);
    assert!(rt; is_copied(Slot::Target(3))?);
    assert!(rt; is_copied(DeviceFault::DoubleId(Slot::Source(2)))?);
    Ok(())
}

#[test]
fn lists_joined(rt: HostRuntime) -> Result<(), Fail> {
    let mut front = text(rt.alloc(), "ab")?;
    front.append(text(rt.alloc(), "cd")?)?;
    assert_eq!(rt; front.as_slice(), b"abcd".as_slice());
    Ok(())
}

#[test]
fn fault_texts(rt: HostRuntime) -> Result<(), Fail> {
    let alloc = rt.alloc();
    let fault = DeviceFault::DoubleId(Slot::Target(3));
    let text = format!(in alloc; "{}", Or::Fault(fault))?;
    assert_eq!(rt; text.as_str(), "output 3: an earlier one has this id");
    let text = format!(in alloc; "{}", Or::<DeviceFault>::NoMemory)?;
    assert_eq!(rt; text.as_str(), "memory ran out");
    Ok(())
}
