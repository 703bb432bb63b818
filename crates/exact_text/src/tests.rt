use super::*;
use std::test::*;

/// Whether bytes have no reading.
fn has_none<T: Drop>(read: Result<T, Misread>) -> bool {
    matches!(read, Err(Misread::NoReading))
}

#[test]
fn reads_numbers(rt: HostRuntime) {
    let bytes = [1, 2, 3, 4, 5, 6, 7, 8, 9];
    assert!(rt; matches!(byte(&bytes), Ok((1, [2, ..]))));
    assert!(rt; matches!(number16(&bytes), Ok((0x0102, [3, ..]))));
    assert!(rt; matches!(number32(&bytes), Ok((0x0102_0304, [5, ..]))));
    assert!(rt; matches!(number64(&bytes), Ok((0x0102_0304_0506_0708, [9]))));
    assert!(rt; has_none(byte(&[])));
    assert!(rt; has_none(number16(&bytes[..1])));
    assert!(rt; has_none(number32(&bytes[..3])));
    assert!(rt; has_none(number64(&bytes[..7])));
}

#[test]
fn reads_given_bytes(rt: HostRuntime) {
    assert!(rt; matches!(expected(b"ab", 97), Ok([98])));
    assert!(rt; has_none(expected(b"ab", 98)));
    assert!(rt; has_none(expected(b"", 97)));
    assert!(rt; matches!(literal(b"CHMAP1\r\nT", b"CHMAP1\r\n"), Ok([84])));
    assert!(rt; has_none(literal(b"CHMAP1\r", b"CHMAP1\r\n")));
    assert!(rt; has_none(literal(b"CHMAP1\n\nT", b"CHMAP1\r\n")));
    assert!(rt; matches!(nothing_behind(&[]), Ok(())));
    assert!(rt; has_none(nothing_behind(&[0])));
}

#[test]
fn reads_texts(rt: HostRuntime) -> Result<(), Fail> {
    let (made, rest) = text(rt.alloc(), b"hello", 4)
        .ok()
        .ok_or("four bytes of five")?;
    assert_eq!(rt; made.as_slice(), b"hell".as_slice());
    assert_eq!(rt; rest, b"o".as_slice());
    assert!(rt; has_none(text(rt.alloc(), b"hello", 6)));
    assert!(rt; matches!(slice(b"hello", 5), Ok((b"hello", []))));
    assert!(rt; has_none(slice(b"hello", 6)));
    Ok(())
}

#[test]
fn reads_lists(rt: HostRuntime) -> Result<(), Fail> {
    let bytes = [0, 1, 0, 2, 255, 255, 9];
    let (numbers, rest) = many::<NetworkOrder, u16>(rt.alloc(), 3, &bytes)
        .ok()
        .ok_or("three numbers")?;
    assert_eq!(rt; numbers.as_slice(), [1u16, 2, 65535].as_slice());
    assert_eq!(rt; rest, [9u8].as_slice());
    assert!(rt; has_none(many::<NetworkOrder, u16>(rt.alloc(), 4, &bytes)));
    let (octets, _) = many::<NetworkOrder, u8>(rt.alloc(), 7, &bytes)
        .ok()
        .ok_or("seven bytes")?;
    assert_eq!(rt; octets.as_slice(), bytes.as_slice());
    let (words, _) = many::<NetworkOrder, u32>(rt.alloc(), 1, &bytes)
        .ok()
        .ok_or("one word")?;
    assert_eq!(rt; words.as_slice(), [65538u32].as_slice());
    let (longs, rest) = many::<NetworkOrder, u64>(rt.alloc(), 0, &bytes)
        .ok()
        .ok_or("no number")?;
    assert!(rt; longs.is_empty() && rest.len() == 7);
    let (longs, _) = many::<NetworkOrder, u64>(rt.alloc(), 1, &[0, 0, 0, 0, 0, 0, 1, 2])
        .ok()
        .ok_or("one number")?;
    assert_eq!(rt; longs.as_slice(), [258u64].as_slice());
    Ok(())
}

#[test]
fn writes_and_reads_records(rt: HostRuntime) -> Result<(), Fail> {
    let mut out = Vec::new(rt.alloc());
    push16(&mut out, 0x0102).ok().ok_or("there is memory")?;
    push32(&mut out, 0x0304_0506).ok().ok_or("there is memory")?;
    push64(&mut out, 0x0708_090a_0b0c_0d0e)
        .ok()
        .ok_or("there is memory")?;
    push_record(&mut out, 80, b"hi")
        .ok()
        .ok_or("there is memory")?;
    let written = [
        1, 2, 3, 4, 5, 6, 7, 8, 9, 10, 11, 12, 13, 14, 80, 0, 0, 0, 2, 104, 105,
    ];
    assert_eq!(rt; out.as_slice(), written.as_slice());
    assert!(rt; matches!(record(&out[14..]), Ok((80, b"hi", []))));
    assert!(rt; has_none(record(&out[14..20])));
    assert!(rt; has_none(record(&out[14..18])));
    Ok(())
}
