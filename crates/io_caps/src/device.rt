//! A device, whose limits its type keeps.

ghost use Rattle.std.specs.Prelude.{◌≡◌, ◌<◌, Some, IfOk, IfErr, OnOk, OnErr, length, slice_get};
ghost use Rattle.io_caps.specs.Device.{IsDevice};
ghost use Rattle.io_caps.specs.Fault.{IsFirstFault};
ghost use Rattle.io_caps.specs.Memory.{IsFaultAnd};

use crate::{DeviceFault, Input, Inputs, NoMemory, Or, Output, Outputs, Rate, TryCopy};
use std::alloc::Global;
use std::marker::Model;

/// What a device is made of.
#[derive(Debug, Drop)]
pub struct DeviceParts {
    pub rate: Rate,
    /// The first tick.
    pub base: u64,
    /// For how many ticks an input waits for late packets.
    pub hold: u8,
    pub inputs: Inputs,
    pub outputs: Outputs,
}

impl TryCopy for DeviceParts {
    fn copy(&self) -> Result<DeviceParts, NoMemory> {
        Ok(DeviceParts {
            rate: self.rate,
            base: self.base,
            hold: self.hold,
            inputs: self.inputs.copy()?,
            outputs: self.outputs.copy()?,
        })
    }
}

/// A device within its limits, which contracts see as its parts.
#[derive(Debug, Drop)]
pub struct Device {
    parts: DeviceParts,
}

impl Model for Device {
    ghost use Rattle.io_caps.specs.declared.device.DeviceParts.{DeviceParts};

    ghost Value = { DeviceParts };

    ghost use Rattle.io_caps.specs.Device.{IsDevice};

    ghost view = { λ d. d.parts };

    ghost invariant = { λ d. IsDevice d.parts };
}

impl Device {
    /// The device of these parts. It is refused exactly where they break a limit, with the first
    /// fault that applies; a refusal drops the parts. No memory is taken.
    pub fn build(_alloc: Global, parts: DeviceParts) -> Result<Device, Or<DeviceFault>>
        ensures ok { IfOk result (λ device. device ≡ parts) }
        ensures within { OnOk result (IsDevice parts) }
        ensures fault { OnErr result (IsDevice parts → ⊥) }
        ensures first { IfErr result (λ e. IsFaultAnd e (IsFirstFault parts)) }
    {
        match parts.check() {
            Ok(()) => Ok(Device { parts }),
            Err(fault) => Err(Or::Fault(fault)),
        }
    }

    /// How it is sampled.
    pub fn rate(&self) -> Rate
        ensures value { result ≡ self.now.rate }
        ensures valid { IsDevice self.now }
    {
        self.parts.rate
    }

    /// The first tick.
    pub fn base(&self) -> u64
        ensures value { result ≡ self.now.base }
        ensures valid { IsDevice self.now }
    {
        self.parts.base
    }

    /// For how many ticks an input waits for late packets.
    pub fn hold(&self) -> u8
        ensures value { result ≡ self.now.hold }
        ensures valid { IsDevice self.now }
    {
        self.parts.hold
    }

    /// How many inputs there are.
    pub fn inputs(&self) -> u8
        ensures value { result ≡ length self.now.inputs }
        ensures valid { IsDevice self.now }
    {
        self.parts.inputs.len() as u8
    }

    /// How many outputs there are.
    pub fn outputs(&self) -> u8
        ensures value { result ≡ length self.now.outputs }
        ensures valid { IsDevice self.now }
    {
        self.parts.outputs.len() as u8
    }

    /// The input of a number that is there.
    pub fn input(&self, number: u8) -> &Input
        requires { number < length self.now.inputs }
        ensures value { slice_get self.now.inputs number ≡ Some result.now }
        ensures valid { IsDevice self.now }
    {
        &self.parts.inputs.as_slice()[number as usize]
    }

    /// The output of a number that is there.
    pub fn output(&self, number: u8) -> &Output
        requires { number < length self.now.outputs }
        ensures value { slice_get self.now.outputs number ≡ Some result.now }
        ensures valid { IsDevice self.now }
    {
        &self.parts.outputs.as_slice()[number as usize]
    }

    /// The inputs by their numbers.
    pub fn input_slice(&self) -> &[Input]
        ensures value { result.now ≡ self.now.inputs }
        ensures valid { IsDevice self.now }
    {
        self.parts.inputs.as_slice()
    }

    /// The outputs by their numbers.
    pub fn output_slice(&self) -> &[Output]
        ensures value { result.now ≡ self.now.outputs }
        ensures valid { IsDevice self.now }
    {
        self.parts.outputs.as_slice()
    }
}

impl TryCopy for Device {
    fn copy(&self) -> Result<Device, NoMemory> {
        Ok(Device {
            parts: self.parts.copy()?,
        })
    }
}
