//! The search for the end of the first line, which goes on where it stopped.

ghost use Rattle.std.specs.Prelude.{◌≡◌, IfSome, IfNone, true, false};
ghost use Rattle.http_wire.specs.Scan.{has_line_from, is_begun_behind};

/// Whether a first line has begun after these bytes, and `None` where it ends in them. Line ends
/// before it do not count.
pub(crate) fn scan_line(begun: bool, bytes: &[u8]) -> Option<bool>
    ensures none { IfNone result (has_line_from begun bytes.now ≡ true) }
    ensures open { IfSome result (λ behind. has_line_from begun bytes.now ≡ false) }
    ensures begun { IfSome result (λ behind. behind ≡ is_begun_behind begun bytes.now) }
{
    let mut begun = begun;
    for byte in bytes {
        match *byte {
            b'\n' if begun => return None,
            b'\n' | b'\r' => {}
            _ => begun = true,
        }
    }
    Some(begun)
}
