//! Devices and requests as texts, and bodies byte for byte.

use crate::{
    BodyFault, DeviceJsonFault, Place, Resource, activation_body, active_body, device_of,
    error_body, item_body, pending_body, request_of, resource_body,
};
use book_words::{Activation, ActiveView, PendingItem, PendingItems, Request, When};
use io_caps::{Device, DeviceFault, NoMemory, Or, Slot, TryCopy};
use map_entry::{Action, RowFault, Setup, SetupFault};
use std::alloc::Global;
use std::process::Abort;
use std::test::Fail;

const TOP: &str = "{\"rate\":48000,\"frames\":2,\"hold\":1";

const INPUT_A: &str = "{\"id\":\"a\",\"channels\":[{\"label\":\"1\"},{\"label\":\"2\"}],\
    \"width\":16,\"payload_type\":96";

const INPUT_B: &str = "{\"id\":\"b\",\"name\":\"B\\u00e9\",\"description\":\"four\",\
    \"channels\":[{\"label\":\"1\"},{\"label\":\"2\"},{\"label\":\"3\"},{\"label\":\"4\"}],\
    \"width\":24,\"payload_type\":97,\"block_size\":2,\"reordering\":false,\
    \"parent\":{\"type\":\"receiver\",\"id\":\"{6BA7B810-9dad-11d1-80b4-00c04fd430c8}\"}}";

const OUTPUT_X: &str = "{\"id\":\"x\",\"channels\":[{\"label\":\"1\"},{\"label\":\"2\"}],\
    \"width\":16,\"payload_type\":96,\"ssrc\":1";

const OUTPUT_Y: &str = "{\"id\":\"y\",\"channels\":[{\"label\":\"1\"},{\"label\":\"2\"}],\
    \"width\":24,\"payload_type\":97,\"ssrc\":2,\"routable_inputs\":[\"b\",null],\
    \"source_id\":\"6ba7b8109dad11d180b400c04fd430c8\"}";

/// The device of two inputs and two outputs, with more members after those of the first input, of
/// the first output, and of the whole. Of a doubled key the last value stays.
fn device_text(alloc: Global, input: &str, output: &str, whole: &str) -> Result<Vec<u8>, NoMemory> {
    let mut text = Vec::new(alloc);
    let parts = [
        TOP,
        ",\"inputs\":[",
        INPUT_A,
        input,
        "},",
        INPUT_B,
        "],\"outputs\":[",
        OUTPUT_X,
        output,
        "},",
        OUTPUT_Y,
        "]",
        whole,
        "}",
    ];
    for part in &parts {
        text.extend_from_slice(part.as_bytes())?;
    }
    Ok(text)
}

/// The fault that a device's text is refused for.
fn device_fault(alloc: Global, text: &[u8]) -> Result<Option<DeviceJsonFault>, NoMemory> {
    match device_of(alloc, text) {
        Ok(_) => Ok(None),
        Err(Or::Fault(fault)) => Ok(Some(fault)),
        Err(Or::NoMemory) => Err(NoMemory),
    }
}

fn check_device(
    rt: &impl Abort,
    alloc: Global,
    parts: [&str; 3],
    wanted: Option<DeviceJsonFault>,
) -> Result<(), NoMemory> {
    let [input, output, whole] = parts;
    let text = device_text(alloc, input, output, whole)?;
    let fault = device_fault(alloc, text.as_slice())?;
    assert_eq!(rt; fault, wanted, "{input} {output} {whole}");
    Ok(())
}

/// Members of the first input, of the first output and of the whole with which the device is read.
const READ: [[&str; 3]; 8] = [
    ["", "", ""],
    ["", "", ",\"colour\":\"red\""],
    [",\"parent\":null", "", ""],
    [
        ",\"parent\":{\"type\":\"source\",\
            \"id\":\"urn:uuid:6ba7b810-9dad-11d1-80b4-00c04fd430c8\"}",
        "",
        "",
    ],
    ["", ",\"ssrc\":4294967295", ""],
    ["", ",\"source_id\":null", ""],
    ["", ",\"routable_inputs\":[\"a\",null]", ""],
    [
        "",
        ",\"map\":[{\"input\":\"a\",\"channel_index\":1},null]",
        "",
    ],
];

/// Members with which no device is said.
const SHAPES: [[&str; 3]; 27] = [
    ["", "", ",\"rate\":48000.0"],
    ["", "", ",\"rate\":4294967296"],
    ["", "", ",\"frames\":65536"],
    ["", "", ",\"frames\":2e0"],
    ["", "", ",\"base\":18446744073709551616"],
    ["", "", ",\"base\":null"],
    ["", "", ",\"hold\":-0"],
    ["", "", ",\"hold\":256"],
    ["", "", ",\"inputs\":{}"],
    [",\"id\":1", "", ""],
    [",\"channels\":[{}]", "", ""],
    [",\"width\":20", "", ""],
    [",\"width\":\"16\"", "", ""],
    [",\"payload_type\":256", "", ""],
    [",\"name\":null", "", ""],
    [",\"block_size\":256", "", ""],
    [",\"reordering\":1", "", ""],
    [
        ",\"parent\":{\"type\":\"sink\",\"id\":\"6ba7b810-9dad-11d1-80b4-00c04fd430c8\"}",
        "",
        "",
    ],
    [
        ",\"parent\":{\"type\":\"source\",\"id\":\"6ba7b810\"}",
        "",
        "",
    ],
    ["", ",\"ssrc\":4294967296", ""],
    ["", ",\"source_id\":\"x\"", ""],
    ["", ",\"routable_inputs\":[\"z\"]", ""],
    ["", ",\"map\":null", ""],
    [
        "",
        ",\"map\":[{\"input\":\"a\",\"channel_index\":256},null]",
        "",
    ],
    [
        "",
        ",\"map\":[{\"input\":\"z\",\"channel_index\":0},null]",
        "",
    ],
    [
        "",
        ",\"map\":[{\"input\":null,\"channel_index\":null},null]",
        "",
    ],
    ["", ",\"map\":[{\"input\":\"a\"},null]", ""],
];

/// Members with which the device breaks a limit.
const LIMITS: [([&str; 3], DeviceFault); 10] = [
    (["", "", ",\"rate\":48001"], DeviceFault::Rate),
    (
        ["", "", ",\"base\":18446744073709551615"],
        DeviceFault::Base,
    ),
    (["", "", ",\"hold\":65"], DeviceFault::Hold),
    (["", "", ",\"outputs\":[]"], DeviceFault::NoOutput),
    (
        [",\"id\":\"a b\"", "", ""],
        DeviceFault::Id(Slot::Source(0)),
    ),
    (
        [",\"id\":\"b\"", "", ""],
        DeviceFault::DoubleId(Slot::Source(1)),
    ),
    (
        ["", ",\"channels\":[]", ""],
        DeviceFault::Channels(Slot::Target(0)),
    ),
    (
        [",\"payload_type\":128", "", ""],
        DeviceFault::PayloadType(Slot::Source(0)),
    ),
    ([",\"block_size\":3", "", ""], DeviceFault::Block(0)),
    (
        [
            "",
            ",\"channels\":[{\"label\":\"\"},{\"label\":\"\"},{\"label\":\"\"},{\"label\":\"\"}]",
            ",\"frames\":240",
        ],
        DeviceFault::Payload(0),
    ),
];

/// Members with which the base row of the first output does not fit.
const ROWS: [([&str; 3], SetupFault); 6] = [
    (["", ",\"map\":[null]", ""], SetupFault::Count),
    (
        ["", ",\"routable_inputs\":[]", ""],
        SetupFault::BaseRow {
            output: 0,
            fault: RowFault::NotRoutable(0),
        },
    ),
    (
        ["", ",\"routable_inputs\":[\"a\"]", ""],
        SetupFault::BaseRow {
            output: 0,
            fault: RowFault::NotRoutable(0),
        },
    ),
    (
        [
            "",
            ",\"map\":[null,{\"input\":\"a\",\"channel_index\":2}]",
            "",
        ],
        SetupFault::BaseRow {
            output: 0,
            fault: RowFault::Channel(1),
        },
    ),
    (
        [
            "",
            ",\"map\":[{\"input\":\"b\",\"channel_index\":0},null]",
            "",
        ],
        SetupFault::BaseRow {
            output: 0,
            fault: RowFault::Block(0),
        },
    ),
    (
        [
            "",
            ",\"map\":[{\"input\":\"b\",\"channel_index\":1},\
                {\"input\":\"b\",\"channel_index\":0}]",
            "",
        ],
        SetupFault::BaseRow {
            output: 0,
            fault: RowFault::Order(0),
        },
    ),
];

#[test]
fn devices(rt: HostRuntime) -> Result<(), Fail> {
    for parts in &READ {
        check_device(&rt, rt.alloc(), *parts, None)?;
    }
    for parts in &SHAPES {
        check_device(&rt, rt.alloc(), *parts, Some(DeviceJsonFault::Shape))?;
    }
    let surrogate = ["", ",\"description\":\"\\ud800\"", ""];
    check_device(&rt, rt.alloc(), surrogate, Some(DeviceJsonFault::NotJson))?;
    Ok(())
}

#[test]
fn broken_devices(rt: HostRuntime) -> Result<(), Fail> {
    for (parts, fault) in &LIMITS {
        check_device(
            &rt,
            rt.alloc(),
            *parts,
            Some(DeviceJsonFault::Device(*fault)),
        )?;
    }
    for (parts, fault) in &ROWS {
        check_device(&rt, rt.alloc(), *parts, Some(DeviceJsonFault::Rows(*fault)))?;
    }
    Ok(())
}

/// The same text a given number of times, with commas between.
fn list_of(alloc: Global, item: &str, count: usize) -> Result<String, NoMemory> {
    let mut list = String::new(alloc);
    for at in 0..count {
        list.push_str(if at == 0 { "" } else { "," })?;
        list.push_str(item)?;
    }
    Ok(list)
}

/// A device of inputs `a`, `b` and `c` with a given number of channels each, which stand a given
/// number of times in its list, and of a given number of outputs.
fn large_device(
    alloc: Global,
    channels: [usize; 3],
    times: usize,
    outputs: usize,
) -> Result<String, NoMemory> {
    let label = "{\"label\":\"\"}";
    let rest = "\"width\":16,\"payload_type\":96";
    let [a, b, c] = channels;
    let a = list_of(alloc, label, a)?;
    let b = list_of(alloc, label, b)?;
    let c = list_of(alloc, label, c)?;
    let inputs = format!(in alloc;
        "{{\"id\":\"a\",\"channels\":[{a}],{rest}}},\
        {{\"id\":\"b\",\"channels\":[{b}],{rest}}},\
        {{\"id\":\"c\",\"channels\":[{c}],{rest}}}"
    )?;
    let inputs = list_of(alloc, inputs.as_str(), times)?;
    let output = format!(in alloc; "{{\"id\":\"x\",\"channels\":[{label}],{rest},\"ssrc\":1}}")?;
    let outputs = list_of(alloc, output.as_str(), outputs)?;
    let text = format!(in alloc;
        "{{\"rate\":48000,\"frames\":2,\"inputs\":[{inputs}],\"outputs\":[{outputs}]}}"
    )?;
    Ok(text)
}

/// The channels of the inputs, how often these are listed, the number of outputs, and the fault.
const LARGE: [([usize; 3], usize, usize, Option<DeviceFault>); 6] = [
    ([64, 63, 1], 1, 1, None),
    ([64, 64, 1], 1, 1, Some(DeviceFault::ManyChannels)),
    (
        [1, 65, 1],
        1,
        1,
        Some(DeviceFault::Channels(Slot::Source(1))),
    ),
    (
        [1, 1, 1],
        5,
        64,
        Some(DeviceFault::DoubleId(Slot::Source(3))),
    ),
    ([1, 1, 1], 6, 1, Some(DeviceFault::ManyInputs)),
    ([1, 1, 1], 0, 65, Some(DeviceFault::ManyOutputs)),
];

#[test]
fn large_devices(rt: HostRuntime) -> Result<(), Fail> {
    for (channels, times, outputs, fault) in &LARGE {
        let text = large_device(rt.alloc(), *channels, *times, *outputs)?;
        let found = device_fault(rt.alloc(), text.as_bytes())?;
        assert_eq!(rt; found, fault.map(DeviceJsonFault::Device));
    }
    Ok(())
}

/// A device with nothing that may be left out.
const LEAST: &str = "{\"rate\":48000,\"frames\":2,\"inputs\":[],\"outputs\":[\
    {\"id\":\"x\",\"channels\":[{\"label\":\"L\"}],\
    \"width\":16,\"payload_type\":96,\"ssrc\":1}]}";

/// The setup that a text says.
fn setup_of(alloc: Global, text: &[u8]) -> Result<Setup, NoMemory> {
    match device_of(alloc, text) {
        Ok(setup) => Ok(setup),
        Err(_) => Err(NoMemory),
    }
}

#[test]
fn least_device(rt: HostRuntime) -> Result<(), Fail> {
    let Setup { device, .. } = setup_of(rt.alloc(), LEAST.as_bytes())?;
    assert_eq!(rt; device.inputs(), 0);
    assert_eq!(rt; device.outputs(), 1);
    assert_eq!(rt; device.base(), 0);
    assert_eq!(rt; device.hold(), 0);
    Ok(())
}

fn setup(alloc: Global) -> Result<Setup, NoMemory> {
    let text = device_text(alloc, "", "", "")?;
    setup_of(alloc, text.as_slice())
}

fn device(alloc: Global) -> Result<Device, NoMemory> {
    let Setup { device, .. } = setup(alloc)?;
    Ok(device)
}

/// The fault that a body is refused for.
fn body_fault(alloc: Global, device: &Device, text: &[u8]) -> Result<Option<BodyFault>, NoMemory> {
    match request_of(alloc, device, text) {
        Ok(_) => Ok(None),
        Err(Or::Fault(fault)) => Ok(Some(fault)),
        Err(Or::NoMemory) => Err(NoMemory),
    }
}

/// Bodies that are refused before their action is looked at.
const BODIES: [(&str, BodyFault); 10] = [
    ("", BodyFault::NotJson),
    ("{", BodyFault::NotJson),
    ("null", BodyFault::Shape(Place::Top)),
    ("[]", BodyFault::Shape(Place::Top)),
    ("{}", BodyFault::Shape(Place::Activation)),
    ("{\"activation\":[]}", BodyFault::Shape(Place::Activation)),
    ("{\"activation\":{}}", BodyFault::Shape(Place::Mode)),
    (
        "{\"activation\":{\"mode\":null}}",
        BodyFault::Shape(Place::Mode),
    ),
    (
        "{\"activation\":{\"mode\":\"activate_scheduled_absolute\"}}",
        BodyFault::Shape(Place::Time),
    ),
    (
        "{\"activation\":{\"mode\":\"activate_immediate\"}}",
        BodyFault::Shape(Place::Action),
    ),
];

/// Modes, times that are asked for, and the fault.
const TIMES: [(&str, &str, Option<BodyFault>); 8] = [
    ("immediate", "7", None),
    ("\\u0069mmediate", "null", None),
    ("at_once", "null", Some(BodyFault::Shape(Place::Mode))),
    ("scheduled_absolute", "\"1099511627775:999999999\"", None),
    (
        "scheduled_absolute",
        "\"1099511627776:0\"",
        Some(BodyFault::Shape(Place::Time)),
    ),
    ("scheduled_relative", "\"007:000\"", None),
    (
        "scheduled_relative",
        "\"0:1000000000\"",
        Some(BodyFault::Shape(Place::Time)),
    ),
    (
        "scheduled_relative",
        "\"1\"",
        Some(BodyFault::Shape(Place::Time)),
    ),
];

#[test]
fn bodies(rt: HostRuntime) -> Result<(), Fail> {
    let device = device(rt.alloc())?;
    for (text, fault) in &BODIES {
        let found = body_fault(rt.alloc(), &device, text.as_bytes())?;
        assert_eq!(rt; found, Some(*fault), "{text}");
    }
    for (mode, time, fault) in &TIMES {
        let text = format!(in rt.alloc();
            "{{\"activation\":{{\"mode\":\"activate_{mode}\",\"requested_time\":{time}}},\
            \"action\":{{}}}}"
        )?;
        let found = body_fault(rt.alloc(), &device, text.as_bytes())?;
        assert_eq!(rt; found, *fault, "{text}");
    }
    Ok(())
}

/// Actions and their fault; of two the first in the order of the keys' bytes.
const ACTIONS: [(&str, Option<BodyFault>); 24] = [
    ("null", Some(BodyFault::Shape(Place::Action))),
    ("[]", Some(BodyFault::Shape(Place::Action))),
    ("{}", None),
    ("{\"x\":{}}", None),
    ("{\"X\":{}}", Some(BodyFault::UnknownOutput)),
    ("{\"z\":null}", Some(BodyFault::UnknownOutput)),
    ("{\"x\":null}", Some(BodyFault::Shape(Place::Output))),
    ("{\"x\":{\"00\":{}}}", Some(BodyFault::Shape(Place::Cell))),
    ("{\"x\":{\"255\":{}}}", None),
    ("{\"x\":{\"256\":{}}}", Some(BodyFault::Shape(Place::Cell))),
    ("{\"x\":{\"+1\":{}}}", Some(BodyFault::Shape(Place::Cell))),
    ("{\"x\":{\"\":{}}}", Some(BodyFault::Shape(Place::Cell))),
    ("{\"x\":{\"0\":null}}", Some(BodyFault::Shape(Place::Cell))),
    (
        "{\"x\":{\"0\":{\"input\":\"a\"}}}",
        Some(BodyFault::Shape(Place::Cell)),
    ),
    (
        "{\"x\":{\"0\":{\"channel_index\":0}}}",
        Some(BodyFault::Shape(Place::Cell)),
    ),
    (
        "{\"x\":{\"0\":{\"input\":\"a\",\"channel_index\":1.0}}}",
        Some(BodyFault::Shape(Place::Cell)),
    ),
    (
        "{\"x\":{\"0\":{\"input\":\"a\",\"channel_index\":-0}}}",
        Some(BodyFault::Shape(Place::Cell)),
    ),
    (
        "{\"x\":{\"0\":{\"input\":\"a\",\"channel_index\":255}}}",
        None,
    ),
    (
        "{\"x\":{\"0\":{\"input\":\"a\",\"channel_index\":256}}}",
        Some(BodyFault::Shape(Place::Cell)),
    ),
    ("{\"x\":{\"0\":null,\"0\":{}}}", None),
    (
        "{\"x\":{\"2\":null,\"10\":{\"input\":\"z\",\"channel_index\":0}}}",
        Some(BodyFault::UnknownInput),
    ),
    (
        "{\"x\":{\"2\":{\"input\":\"z\",\"channel_index\":0},\"10\":null}}",
        Some(BodyFault::Shape(Place::Cell)),
    ),
    (
        "{\"x\":{\"0\":null},\"m\":{}}",
        Some(BodyFault::UnknownOutput),
    ),
    (
        "{\"y\":{},\"x\":7,\"z\":{}}",
        Some(BodyFault::Shape(Place::Output)),
    ),
];

#[test]
fn actions(rt: HostRuntime) -> Result<(), Fail> {
    let device = device(rt.alloc())?;
    for (action, fault) in &ACTIONS {
        let text = format!(in rt.alloc();
            "{{\"activation\":{{\"mode\":\"activate_immediate\"}},\"action\":{action}}}"
        )?;
        let found = body_fault(rt.alloc(), &device, text.as_bytes())?;
        assert_eq!(rt; found, *fault, "{action}");
    }
    Ok(())
}

fn nested(alloc: Global, levels: usize) -> Result<Vec<u8>, NoMemory> {
    let mut text = Vec::new(alloc);
    text.resize(levels, b'[')?;
    text.resize(2 * levels, b']')?;
    Ok(text)
}

#[test]
fn texts(rt: HostRuntime) -> Result<(), Fail> {
    let device = device(rt.alloc())?;
    let no_object = BodyFault::Shape(Place::Top);
    let cases: [(&[u8], BodyFault); 6] = [
        (b"\"\xff\"", BodyFault::NotJson),
        (b"\"\\ud83d\\ude00\"", no_object),
        (b"\"\\ud83d\"", BodyFault::NotJson),
        (b"\"\\x\"", BodyFault::NotJson),
        (b"1e999", BodyFault::NotJson),
        (b" 1 ", no_object),
    ];
    for (text, fault) in &cases {
        let found = body_fault(rt.alloc(), &device, text)?;
        assert_eq!(rt; found, Some(*fault));
    }
    for (levels, fault) in [(127, no_object), (128, BodyFault::NotJson)] {
        let text = nested(rt.alloc(), levels)?;
        let found = body_fault(rt.alloc(), &device, text.as_slice())?;
        assert_eq!(rt; found, Some(fault), "{levels}");
    }
    Ok(())
}

const IO: &str = "{\"inputs\":{\
    \"a\":{\"caps\":{\"block_size\":1,\"reordering\":true},\
    \"channels\":[{\"label\":\"1\"},{\"label\":\"2\"}],\
    \"parent\":{\"id\":null,\"type\":null},\
    \"properties\":{\"description\":\"\",\"name\":\"a\"}},\
    \"b\":{\"caps\":{\"block_size\":2,\"reordering\":false},\
    \"channels\":[{\"label\":\"1\"},{\"label\":\"2\"},{\"label\":\"3\"},{\"label\":\"4\"}],\
    \"parent\":{\"id\":\"6ba7b810-9dad-11d1-80b4-00c04fd430c8\",\"type\":\"receiver\"},\
    \"properties\":{\"description\":\"four\",\"name\":\"B\u{e9}\"}}},\
    \"outputs\":{\
    \"x\":{\"caps\":{\"routable_inputs\":null},\
    \"channels\":[{\"label\":\"1\"},{\"label\":\"2\"}],\
    \"properties\":{\"description\":\"\",\"name\":\"x\"},\"source_id\":null},\
    \"y\":{\"caps\":{\"routable_inputs\":[\"b\",null]},\
    \"channels\":[{\"label\":\"1\"},{\"label\":\"2\"}],\
    \"properties\":{\"description\":\"\",\"name\":\"y\"},\
    \"source_id\":\"6ba7b810-9dad-11d1-80b4-00c04fd430c8\"}}}";

#[test]
fn resources(rt: HostRuntime) -> Result<(), Fail> {
    let device = device(rt.alloc())?;
    let mut out = Vec::new(rt.alloc());
    resource_body(rt.alloc(), &device, Resource::Io, &mut out)?;
    assert_eq!(rt; out.as_slice(), IO.as_bytes());
    out.clear();
    resource_body(rt.alloc(), &device, Resource::Inputs, &mut out)?;
    resource_body(rt.alloc(), &device, Resource::Version, &mut out)?;
    let wanted = b"[\"a/\",\"b/\"][\"inputs/\",\"outputs/\",\"map/\",\"io/\"]";
    assert_eq!(rt; out.as_slice(), wanted.as_slice());
    Ok(())
}

/// What is printed of faults.
const FAULTS: [(BodyFault, &str); 3] = [
    (BodyFault::NotJson, "the text is not JSON"),
    (
        BodyFault::Shape(Place::Time),
        "requested_time is not a time",
    ),
    (BodyFault::UnknownInput, "there is no input of that id"),
];

#[test]
fn errors(rt: HostRuntime) -> Result<(), Fail> {
    for (fault, wanted) in &FAULTS {
        let text = format!(in rt.alloc(); "{fault}")?;
        assert_eq!(rt; text.as_str(), *wanted);
    }
    let mut out = Vec::new(rt.alloc());
    error_body(rt.alloc(), 423, "output locked", &mut out)?;
    let wanted = b"{\"code\":423,\"debug\":null,\"error\":\"output locked\"}";
    assert_eq!(rt; out.as_slice(), wanted.as_slice());
    Ok(())
}

/// The active map before any activation.
const UNROUTED: &str = "{\"activation\":\
    {\"activation_time\":null,\"mode\":null,\"requested_time\":null},\
    \"map\":{\"x\":{\"0\":{\"channel_index\":null,\"input\":null},\
    \"1\":{\"channel_index\":null,\"input\":null}},\
    \"y\":{\"0\":{\"channel_index\":null,\"input\":null},\
    \"1\":{\"channel_index\":null,\"input\":null}}}}";

#[test]
fn active_map(rt: HostRuntime) -> Result<(), Fail> {
    let Setup { device, rows, .. } = setup(rt.alloc())?;
    let view = ActiveView { last: None, rows };
    let mut out = Vec::new(rt.alloc());
    active_body(rt.alloc(), &device, &view, None, &mut out)?;
    assert_eq!(rt; out.as_slice(), UNROUTED.as_bytes());
    Ok(())
}

/// The active map of one output after an activation that counts from the second frame of tick 10.
const FROM_FRAME: &str = "{\"activation\":\
    {\"activation_time\":\"0:437500\",\"mode\":\"activate_immediate\",\"requested_time\":null},\
    \"map\":{\"x\":{\"0\":{\"channel_index\":null,\"input\":null},\
    \"1\":{\"channel_index\":null,\"input\":null}}}}";

#[test]
fn start_of_a_frame(rt: HostRuntime) -> Result<(), Fail> {
    let Setup { device, rows, .. } = setup(rt.alloc())?;
    let last = Some(Activation::new(1, When::Now, 10, 1));
    let view = ActiveView { last, rows };
    let mut out = Vec::new(rt.alloc());
    active_body(rt.alloc(), &device, &view, Some(0), &mut out)?;
    assert_eq!(rt; out.as_slice(), FROM_FRAME.as_bytes());
    Ok(())
}

/// What a POST names, in another order than the device's, and the item that comes of it.
const POST: &str = "{\"action\":{\"y\":{\"1\":{},\"0\":{\"input\":\"b\",\"channel_index\":3}},\
    \"x\":{\"1\":{\"channel_index\":0,\"input\":\"a\"}}},\
    \"activation\":{\"mode\":\"activate_scheduled_relative\",\"requested_time\":\"00:0500\"}}";

const ITEM: &str = "{\"action\":{\"x\":{\"1\":{\"channel_index\":0,\"input\":\"a\"}},\
    \"y\":{\"0\":{\"channel_index\":3,\"input\":\"b\"},\
    \"1\":{\"channel_index\":null,\"input\":null}}},\
    \"activation\":{\"activation_time\":\"0:416666\",\
    \"mode\":\"activate_scheduled_relative\",\"requested_time\":\"0:500\"}}";

fn check_items(
    rt: &impl Abort,
    alloc: Global,
    device: &Device,
    when: When,
    action: Action,
) -> Result<(), Fail> {
    let mut out = Vec::new(alloc);
    activation_body(alloc, device, 7, &when, 10, 0, &action, &mut out)?;
    let wanted = format!(in alloc; "{{\"7\":{ITEM}}}")?;
    assert_eq!(rt; out.as_slice(), wanted.as_bytes());
    let item = PendingItem::new(10, when, 10, 0, action);
    out.clear();
    item_body(alloc, device, &item, &mut out)?;
    assert_eq!(rt; out.as_slice(), ITEM.as_bytes());
    let mut items = PendingItems::new(alloc);
    let again = PendingItem::new(9, when, 10, 0, item.action.copy()?);
    items.push(again)?;
    items.push(item)?;
    out.clear();
    pending_body(alloc, device, &items, &mut out)?;
    let wanted = format!(in alloc; "{{\"10\":{ITEM},\"9\":{ITEM}}}")?;
    assert_eq!(rt; out.as_slice(), wanted.as_bytes());
    Ok(())
}

#[test]
fn items(rt: HostRuntime) -> Result<(), Fail> {
    let device = device(rt.alloc())?;
    match request_of(rt.alloc(), &device, POST.as_bytes()) {
        Ok(Request::Activate { when, action }) => {
            check_items(&rt, rt.alloc(), &device, when, action)?;
        }
        _ => assert!(rt; POST.is_empty()),
    }
    Ok(())
}
