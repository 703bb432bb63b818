//! The tests that parts are within the limits of a device, in the order of the faults.

ghost use Rattle.std.specs.Prelude.{◌≡◌, ◌≢◌, ◌<◌, ◌≤◌, ◌↔◌, IsTrue, IfNone, IfSome};
ghost use Rattle.std.specs.Prelude.{IfErr, OnOk, OnErr, All, List, ℕ, length, take};
ghost use Rattle.std.specs.List.{AllPairs, Any, sum_by};
ghost use Rattle.io_caps.specs.declared.limits.TheConstants.{MOST_INPUTS, MOST_OUTPUTS};
ghost use Rattle.io_caps.specs.declared.limits.TheConstants.{MOST_CHANNELS, MOST_FRAMES};
ghost use Rattle.io_caps.specs.Port.{IsIdByte, IsId, AreChannels, IsPayloadType};
ghost use Rattle.io_caps.specs.Port.{HasWholeBlocks, FitsPacket, IsRoutable};
ghost use Rattle.io_caps.specs.Fault.{IsFirstFailing, IsFirstDouble, first_slot, IsFirstFault};
ghost use Rattle.io_caps.specs.Device.{IsBase, HasBounds, HasIds, HasStreams, HasRoutes, IsDevice};

use crate::limits::{
    MOST_CHANNELS, MOST_HOLD, MOST_ID_BYTES, MOST_INPUT_CHANNELS, MOST_INPUTS, MOST_OUTPUTS,
    MOST_PAYLOAD_TYPE, SECONDS_OF_TIME, TICKS_PAST_BASE,
};
use crate::{DeviceFault, DeviceParts, Input, Output, Rate, Slot, Text};

/// What an input and an output have in common.
trait Port {
    ghost id: { Self → List ℕ };

    ghost labels: { Self → List (List ℕ) };

    ghost payload_type: { Self → ℕ };

    fn id(&self) -> &[u8]
        ensures { result.now ≡ id self.now };

    fn labels(&self) -> &[Text]
        ensures { result.now ≡ labels self.now };

    fn payload_type(&self) -> u8
        ensures { result ≡ payload_type self.now };
}

impl Port for Input {
    ghost id = { λ i. i.id };

    ghost labels = { λ i. i.labels };

    ghost payload_type = { λ i. i.payload_type };

    fn id(&self) -> &[u8] {
        self.id.as_slice()
    }

    fn labels(&self) -> &[Text] {
        self.labels.as_slice()
    }

    fn payload_type(&self) -> u8 {
        self.payload_type
    }
}

impl Port for Output {
    ghost id = { λ o. o.id };

    ghost labels = { λ o. o.labels };

    ghost payload_type = { λ o. o.payload_type };

    fn id(&self) -> &[u8] {
        self.id.as_slice()
    }

    fn labels(&self) -> &[Text] {
        self.labels.as_slice()
    }

    fn payload_type(&self) -> u8 {
        self.payload_type
    }
}

/// Whether a byte may stand in an id.
fn is_id_byte(byte: u8) -> bool
    ensures { IsTrue result ↔ IsIdByte byte }
{
    byte.is_ascii_alphanumeric() || byte == b'-' || byte == b'_'
}

/// Whether bytes are an id.
fn is_id(id: &[u8]) -> bool
    ensures { IsTrue result ↔ IsId id.now }
{
    id.len() >= 1 && id.len() <= MOST_ID_BYTES && id.iter().all(|byte| is_id_byte(*byte))
}

/// Whether a port may have a channel for each of these labels.
fn are_channels(labels: &[Text]) -> bool
    ensures { IsTrue result ↔ AreChannels labels.now }
{
    labels.len() >= 1 && labels.len() <= MOST_CHANNELS
}

/// Whether ticks at a base this far on still have times.
fn is_base(rate: Rate, base: u64) -> bool
    ensures { IsTrue result ↔ IsBase rate base }
{
    (base as u128 + TICKS_PAST_BASE as u128) * (rate.frames as u128)
        < rate.hz as u128 * SECONDS_OF_TIME as u128
}

/// The first port whose id is none.
fn bad_id<P: Port>(ports: &[P]) -> Option<usize>
    ensures { IsFirstFailing (λ p. IsId (P.id p)) ports.now result }
{
    ports.iter().position(|port| !is_id(port.id()))
}

/// The first port that has no channels or too many.
fn bad_channels<P: Port>(ports: &[P]) -> Option<usize>
    ensures { IsFirstFailing (λ p. AreChannels (P.labels p)) ports.now result }
{
    ports.iter().position(|port| !are_channels(port.labels()))
}

/// The first port whose payload type is too high.
fn bad_payload_type<P: Port>(ports: &[P]) -> Option<usize>
    ensures { IsFirstFailing (λ p. IsPayloadType (P.payload_type p)) ports.now result }
{
    ports
        .iter()
        .position(|port| port.payload_type() > MOST_PAYLOAD_TYPE)
}

/// The first input whose channels are no whole channel blocks.
fn bad_blocks(inputs: &[Input]) -> Option<usize>
    ensures { IsFirstFailing HasWholeBlocks inputs.now result }
{
    inputs.iter().position(|input| !input.has_whole_blocks())
}

/// The first output that lists an input beyond a given number.
fn bad_routable(inputs: usize, outputs: &[Output]) -> Option<usize>
    ensures { IsFirstFailing (λ o. IsRoutable inputs o.routable) outputs.now result }
{
    outputs
        .iter()
        .position(|output| !output.routable.names_inputs(inputs))
}

/// The first output whose samples of a tick do not fit into one packet.
fn bad_packet(rate: Rate, outputs: &[Output]) -> Option<usize>
    ensures { IsFirstFailing (FitsPacket rate) outputs.now result }
{
    outputs.iter().position(|output| !output.fits_packet(rate))
}

/// Whether one of the ports has the id.
fn has_id<P: Port>(ports: &[P], id: &[u8]) -> bool
    ensures { IsTrue result ↔ Any (λ p. P.id p ≡ id.now) ports.now }
{
    ports.iter().any(|port| port.id() == id)
}

/// The first port whose id an earlier one has.
fn double_id<P: Port>(ports: &[P]) -> Option<usize>
    ensures { IsFirstDouble P.id ports.now result }
{
    for at in 0..ports.len() {
        if has_id(&ports[..at], ports[at].id()) {
            return Some(at);
        }
    }
    None
}

/// The channels of all inputs together.
fn channels_together(inputs: &[Input]) -> usize
    requires few { length inputs.now ≤ MOST_INPUTS }
    requires within { All (λ i. AreChannels i.labels) inputs.now }
    ensures { result ≡ sum_by (λ i. length i.labels) inputs.now }
{
    let mut together = 0;
    for input in inputs {
        together += input.channels();
    }
    together
}

/// The first of two places, one among the inputs and one among the outputs.
fn first_slot(source: Option<usize>, target: Option<usize>) -> Option<Slot>
    requires source { IfSome source (λ k. k < MOST_INPUTS) }
    requires target { IfSome target (λ k. k < MOST_OUTPUTS) }
    ensures { result ≡ first_slot source target }
{
    match (source, target) {
        (Some(source), _) => Some(Slot::Source(source as u8)),
        (None, Some(target)) => Some(Slot::Target(target as u8)),
        (None, None) => None,
    }
}

impl DeviceParts {
    /// The first fault of the parts, where they have one.
    pub(crate) fn check(&self) -> Result<(), DeviceFault>
        ensures ok { OnOk result (IsDevice self.now) }
        ensures fault { OnErr result (IsDevice self.now → ⊥) }
        ensures first { IfErr result (IsFirstFault self.now) }
    {
        self.check_bounds()?;
        self.check_ids()?;
        self.check_streams()?;
        self.check_routes()
    }

    /// The first fault of the rate, of the base tick, and of how much of each thing there is.
    fn check_bounds(&self) -> Result<(), DeviceFault>
        ensures ok { OnOk result (HasBounds self.now) }
        ensures fault { OnErr result (HasBounds self.now → ⊥) }
        ensures first { IfErr result (IsFirstFault self.now) }
    {
        if !self.rate.is_valid() {
            return Err(DeviceFault::Rate);
        }
        if !is_base(self.rate, self.base) {
            return Err(DeviceFault::Base);
        }
        if self.hold > MOST_HOLD {
            return Err(DeviceFault::Hold);
        }
        if self.outputs.len() == 0 {
            return Err(DeviceFault::NoOutput);
        }
        if self.inputs.len() > MOST_INPUTS {
            return Err(DeviceFault::ManyInputs);
        }
        if self.outputs.len() > MOST_OUTPUTS {
            return Err(DeviceFault::ManyOutputs);
        }
        Ok(())
    }

    /// The first fault of the ids.
    fn check_ids(&self) -> Result<(), DeviceFault>
        requires bounds { HasBounds self.now }
        ensures ok { OnOk result (HasIds self.now) }
        ensures fault { OnErr result (HasIds self.now → ⊥) }
        ensures first { IfErr result (IsFirstFault self.now) }
    {
        let inputs = self.inputs.as_slice();
        let outputs = self.outputs.as_slice();
        if let Some(slot) = first_slot(bad_id(inputs), bad_id(outputs)) {
            return Err(DeviceFault::Id(slot));
        }
        if let Some(slot) = first_slot(double_id(inputs), double_id(outputs)) {
            return Err(DeviceFault::DoubleId(slot));
        }
        Ok(())
    }

    /// The first fault of the channels and the payload types.
    fn check_streams(&self) -> Result<(), DeviceFault>
        requires bounds { HasBounds self.now }
        requires ids { HasIds self.now }
        ensures ok { OnOk result (HasStreams self.now) }
        ensures fault { OnErr result (HasStreams self.now → ⊥) }
        ensures first { IfErr result (IsFirstFault self.now) }
    {
        let inputs = self.inputs.as_slice();
        let outputs = self.outputs.as_slice();
        if let Some(slot) = first_slot(bad_channels(inputs), bad_channels(outputs)) {
            return Err(DeviceFault::Channels(slot));
        }
        if let Some(slot) = first_slot(bad_payload_type(inputs), bad_payload_type(outputs)) {
            return Err(DeviceFault::PayloadType(slot));
        }
        if channels_together(inputs) > MOST_INPUT_CHANNELS {
            return Err(DeviceFault::ManyChannels);
        }
        Ok(())
    }

    /// The first fault of the channel blocks, of the packets and of what may be routed.
    fn check_routes(&self) -> Result<(), DeviceFault>
        requires bounds { HasBounds self.now }
        requires ids { HasIds self.now }
        requires streams { HasStreams self.now }
        ensures ok { OnOk result (HasRoutes self.now) }
        ensures fault { OnErr result (HasRoutes self.now → ⊥) }
        ensures first { IfErr result (IsFirstFault self.now) }
    {
        let inputs = self.inputs.as_slice();
        let outputs = self.outputs.as_slice();
        if let Some(at) = bad_blocks(inputs) {
            return Err(DeviceFault::Block(at as u8));
        }
        if let Some(at) = bad_packet(self.rate, outputs) {
            return Err(DeviceFault::Payload(at as u8));
        }
        if let Some(at) = bad_routable(inputs.len(), outputs) {
            return Err(DeviceFault::Unknown(at as u8));
        }
        Ok(())
    }
}
