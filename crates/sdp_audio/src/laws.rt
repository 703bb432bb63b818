//! What definitions of this crate mean: the contract of a function that does nothing.

ghost use Rattle.std.specs.Prelude.{◌≡◌};
ghost use Rattle.io_caps.specs.Device.{IsDevice};
ghost use Rattle.io_caps.specs.declared.device.DeviceParts.{DeviceParts};
ghost use Rattle.sdp_audio.specs.Fault.{HasNoFault};
ghost use Rattle.sdp_audio.specs.Section.{sdp_streams};
ghost use Rattle.sdp_audio.specs.Text.{sdp_text, device_streams};

/// The description of a device is read without a fault, as one stream for each output, with its
/// port, type, width, rate and channels.
pub fn descriptions_are_read()
    ensures good { (d : DeviceParts) → IsDevice d → HasNoFault (sdp_text d) }
    ensures streams { (d : DeviceParts) → IsDevice d → sdp_streams (sdp_text d) ≡ device_streams d }
{}
