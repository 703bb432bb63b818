//! What holds of captures that are written: a law, the contract of a function that does nothing.
//! A caller that cites it calls it.

ghost use Rattle.std.specs.Prelude.{◌≡◌, ◌++◌, ℕ, List, length};
ghost use Rattle.std.specs.List.{flat_map};
ghost use Rattle.map_entry.specs.Setup.{setup_of};
ghost use Rattle.capture_file.specs.Capture.{AreItems, AreTicks, IsCaptureText, IsDeviceRecord};
ghost use Rattle.capture_file.specs.Capture.{IsGrainText, capture_of, front_text};
ghost use Rattle.capture_file.specs.Items.{end_text, item};
ghost use Rattle.capture_file.specs.declared.items.Item.{Item};
ghost use Rattle.capture_file.specs.declared.opening.Opening.{Opening};

/// The magic of a format, a record of a device, what says a grain, records and the last record are
/// the text of the capture of all these: what is written is read as the same setup and records.
pub fn written_captures_are_read()
    ensures { (o : Opening) (device : ℕ × List ℕ) (grain : List ℕ) (items : List Item) (ticks : ℕ)
        → IsDeviceRecord (setup_of o.setup.device o.setup.rows) device
        → IsGrainText o.format o.setup.grain grain
        → o.items_at ≡ length (front_text o.format device grain)
        → AreItems (length o.setup.device.inputs) items
        → AreTicks (length o.setup.device.outputs) items ticks
        → IsCaptureText (capture_of o items ticks)
        (front_text o.format device grain ++ (flat_map item.text items ++ end_text)) }
{}
