//! What a path leads to.

ghost use Rattle.std.specs.Prelude.{◌≡◌, ◌<◌, ◌-◌, ◌^◌, IfSome, drop, length, option_map};
ghost use Rattle.channel_json.specs.Requests.{number_in};
ghost use Rattle.std.specs.List.{before_first, position};
ghost use Rattle.api_routes.specs.declared.targets.Target.TheVariants.{Fixed};
ghost use Rattle.api_routes.specs.Targets.{IsTargetThere, cut_path, id_in, input_resource};
ghost use Rattle.api_routes.specs.Targets.{is_slash, output_resource, named_activation};
ghost use Rattle.api_routes.specs.Targets.{named_input, named_output, named_row, part_behind};
ghost use Rattle.api_routes.specs.Targets.{route_of, target_of};

use crate::routes::{InputPart, OutputPart, Route, Routes};
use channel_json::{Resource, input_number, output_number};
use io_caps::Device;
use itoa::Buffer;

/// What a path leads to on a device.
#[derive(Clone, Copy, Debug, PartialEq)]
pub(crate) enum Target {
    /// A resource that the device tells alone.
    Fixed(Resource),
    /// The pending activations.
    AllPending,
    /// The pending activation of an id.
    OnePending(u64),
    /// The active map: all of it, or the row of one output.
    Rows(Option<u8>),
}

/// The path without one trailing slash, unless it is a slash alone.
pub(crate) fn cut_path(path: &[u8]) -> &[u8]
    ensures { result.now ≡ cut_path path.now }
{
    let len = path.len();
    if 1 < len && path[len - 1] == b'/' {
        &path[..len - 1]
    } else {
        path
    }
}

/// The resource of a path that has no trailing slash.
pub(crate) fn route_of(routes: &Routes, path: &[u8]) -> Option<Route>
    ensures { result ≡ route_of path.now }
{
    match std::str::from_utf8(path) {
        Ok(text) => routes.route_of(text),
        Err(_) => None,
    }
}

/// The path after a given number of bytes.
fn behind(len: usize, path: &[u8]) -> &[u8]
    ensures { result.now ≡ drop len path.now }
{
    if len <= path.len() { &path[len..] } else { &[] }
}

fn slash_at(rest: &[u8]) -> Option<usize>
    ensures { result ≡ position is_slash rest.now }
{
    rest.iter().position(|byte| *byte == b'/')
}

/// What stands before the first slash.
fn before_slash(rest: &[u8]) -> &[u8]
    ensures { result.now ≡ before_first is_slash rest.now }
{
    match slash_at(rest) {
        Some(end) => &rest[..end],
        None => rest,
    }
}

/// What follows a beginning of the path, up to the next slash.
fn part_behind<'p>(front: &str, path: &'p [u8]) -> &'p [u8]
    ensures { result.now ≡ part_behind front.now path.now }
{
    before_slash(behind(front.len(), path))
}

fn named_input(device: &Device, path: &[u8]) -> Option<u8>
    ensures value { result ≡ named_input device.now path.now }
    ensures there { IfSome result (λ input. input < length device.now.inputs) }
{
    input_number(
        device,
        part_behind("/x-nmos/channelmapping/v1.0/inputs/", path),
    )
}

fn named_output(device: &Device, path: &[u8]) -> Option<u8>
    ensures value { result ≡ named_output device.now path.now }
    ensures there { IfSome result (λ output. output < length device.now.outputs) }
{
    output_number(
        device,
        part_behind("/x-nmos/channelmapping/v1.0/outputs/", path),
    )
}

fn named_row(device: &Device, path: &[u8]) -> Option<u8>
    ensures { result ≡ named_row device.now path.now }
{
    output_number(
        device,
        part_behind("/x-nmos/channelmapping/v1.0/map/active/", path),
    )
}

/// The number whose decimal text, without leading zeros, this is.
fn decimal_of(text: &str) -> Option<u64>
    ensures { result ≡ number_in (2 ^ 64 - 1) text.now }
{
    let number = text.parse::<u64>().ok()?;
    let mut buffer = Buffer::new();
    if buffer.format(number) == text {
        Some(number)
    } else {
        None
    }
}

fn number_of(text: &[u8]) -> Option<u64>
    ensures { result ≡ number_in (2 ^ 64 - 1) text.now }
{
    match std::str::from_utf8(text) {
        Ok(text) => decimal_of(text),
        Err(_) => None,
    }
}

/// The number of an activation.
fn id_of(text: &[u8]) -> Option<u64>
    ensures { result ≡ id_in text.now }
{
    let number = number_of(text)?;
    if number == 0 { None } else { Some(number) }
}

fn named_activation(path: &[u8]) -> Option<u64>
    ensures { result ≡ named_activation path.now }
{
    id_of(part_behind("/x-nmos/channelmapping/v1.0/map/activations/", path))
}

fn input_resource(part: InputPart, number: u8) -> Resource
    ensures { result ≡ input_resource part number }
{
    match part {
        InputPart::Names => Resource::Input,
        InputPart::Properties => Resource::InputProperties(number),
        InputPart::Parent => Resource::Parent(number),
        InputPart::Channels => Resource::InputChannels(number),
        InputPart::Caps => Resource::InputCaps(number),
    }
}

fn output_resource(part: OutputPart, number: u8) -> Resource
    ensures { result ≡ output_resource part number }
{
    match part {
        OutputPart::Names => Resource::Output,
        OutputPart::Properties => Resource::OutputProperties(number),
        OutputPart::SourceId => Resource::SourceId(number),
        OutputPart::Channels => Resource::OutputChannels(number),
        OutputPart::Caps => Resource::OutputCaps(number),
    }
}

/// A resource of the input that the path names.
fn input_target(device: &Device, part: InputPart, path: &[u8]) -> Option<Target>
    ensures value { result ≡ option_map (λ number. Fixed (input_resource part number))
        (named_input device.now path.now) }
    ensures there { IfSome result (IsTargetThere device.now) }
{
    let number = named_input(device, path)?;
    Some(Target::Fixed(input_resource(part, number)))
}

/// A resource of the output that the path names.
fn output_target(device: &Device, part: OutputPart, path: &[u8]) -> Option<Target>
    ensures value { result ≡ option_map (λ number. Fixed (output_resource part number))
        (named_output device.now path.now) }
    ensures there { IfSome result (IsTargetThere device.now) }
{
    let number = named_output(device, path)?;
    Some(Target::Fixed(output_resource(part, number)))
}

/// What a resource's path leads to, and `None` where what it names is not there.
pub(crate) fn target_of(device: &Device, route: Route, path: &[u8]) -> Option<Target>
    ensures value { result ≡ target_of device.now route path.now }
    ensures there { IfSome result (IsTargetThere device.now) }
{
    match route {
        Route::Slash => Some(Target::Fixed(Resource::Slash)),
        Route::Nmos => Some(Target::Fixed(Resource::Nmos)),
        Route::Mapping => Some(Target::Fixed(Resource::Mapping)),
        Route::Version => Some(Target::Fixed(Resource::Version)),
        Route::Inputs => Some(Target::Fixed(Resource::Inputs)),
        Route::Outputs => Some(Target::Fixed(Resource::Outputs)),
        Route::OfInput(part) => input_target(device, part, path),
        Route::OfOutput(part) => output_target(device, part, path),
        Route::Map => Some(Target::Fixed(Resource::Map)),
        Route::Activations => Some(Target::AllPending),
        Route::Activation => Some(Target::OnePending(named_activation(path)?)),
        Route::Active => Some(Target::Rows(None)),
        Route::ActiveOutput => Some(Target::Rows(Some(named_row(device, path)?))),
        Route::Io => Some(Target::Fixed(Resource::Io)),
    }
}
