//! The form in which a capture spells values.

/// The way in which the values of a capture are read from its bytes. (This project's own.)
pub(crate) struct CaptureForm;
