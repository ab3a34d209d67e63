// The edges of the rules, by examples worked out by hand.
use crate::content::{boolean_of, is_identifier, is_integer, is_serial, same_identifier};
use crate::cursor::Cursor;
use crate::element::read_element;
use crate::refusal::Refusal;
use crate::time::is_time;
use std::process::Abort;
use std::test::Fail;

// The element at the place has this tag and this content.
fn reads(rt: &impl Abort, file: &[u8], place: usize, tag: u8, content: &[u8]) -> Result<(), Fail> {
    match read_element(file, place) {
        Ok(element) => {
            assert_eq!(rt; element.tag, tag);
            assert!(rt; element.content == content);
            Ok(())
        }
        Err(refusal) => Err(Fail::new(u8::from(refusal.reason))),
    }
}

// The element at the place is refused with this number, at that place.
fn refused(rt: &impl Abort, file: &[u8], place: usize, number: u8) -> Result<(), Fail> {
    match read_element(file, place) {
        Ok(element) => Err(Fail::new(element.tag)),
        Err(refusal) => {
            assert_eq!(rt; u8::from(refusal.reason), number);
            assert_eq!(rt; refusal.place, place);
            Ok(())
        }
    }
}

#[test]
fn short_lengths(rt: HostRuntime) -> Result<(), Fail> {
    reads(&rt, b"\x04\x00", 0, 0x04, b"")?;
    reads(&rt, b"\x04\x02ab", 0, 0x04, b"ab")?;
    reads(&rt, b"\x30\x03\x02\x01\x05", 2, 0x02, b"\x05")?;
    reads(&rt, b"\x00\x00", 0, 0x00, b"")?;
    // What stands behind the element is not looked at.
    reads(&rt, b"\x04\x01a\xff", 0, 0x04, b"a")
}

#[test]
fn refused_elements(rt: HostRuntime) -> Result<(), Fail> {
    // Nothing there: at the end, behind it, in an empty file.
    refused(&rt, b"", 0, 4)?;
    refused(&rt, b"\x04\x00", 2, 4)?;
    refused(&rt, b"\x04\x00", 7, 4)?;
    // The low five bits of the tag are all ones; this comes before the length.
    refused(&rt, b"\x1f\x00", 0, 4)?;
    refused(&rt, b"\xff", 0, 4)?;
    // The length, or a byte of it, is missing.
    refused(&rt, b"\x04", 0, 2)?;
    refused(&rt, b"\x04\x81", 0, 2)?;
    refused(&rt, b"\x04\x82\x01", 0, 2)?;
    // No form taken here, whatever follows.
    refused(&rt, b"\x04\x80", 0, 3)?;
    refused(&rt, b"\x04\x83\x01\x00\x00", 0, 3)?;
    refused(&rt, b"\x04\xff", 0, 3)?;
    // A shorter form would do; this comes before the content that is missing.
    refused(&rt, b"\x04\x81\x7f", 0, 3)?;
    refused(&rt, b"\x04\x82\x00\x80", 0, 3)?;
    refused(&rt, b"\x04\x82\x00\xff", 0, 3)?;
    // The content ends behind the file.
    refused(&rt, b"\x04\x01", 0, 2)?;
    refused(&rt, b"\x04\x81\x80", 0, 2)?;
    refused(&rt, b"\x04\x82\x01\x00", 0, 2)
}

#[test]
fn long_lengths(rt: HostRuntime) -> Result<(), Fail> {
    let mut file = [0x61u8; 300];
    file[0] = 0x04;
    // 127 bytes: in one byte, and not behind 81.
    file[1] = 0x7f;
    reads(&rt, &file[0..129], 0, 0x04, &[0x61u8; 127])?;
    file[1] = 0x81;
    file[2] = 0x7f;
    refused(&rt, &file[0..130], 0, 3)?;
    // 128 and 255 bytes: behind 81.
    file[2] = 0x80;
    reads(&rt, &file[0..131], 0, 0x04, &[0x61u8; 128])?;
    refused(&rt, &file[0..130], 0, 2)?;
    file[2] = 0xff;
    reads(&rt, &file[0..258], 0, 0x04, &[0x61u8; 255])?;
    // 256 bytes: behind 82, high byte first.
    file[1] = 0x82;
    file[2] = 0x01;
    file[3] = 0x00;
    reads(&rt, &file[0..260], 0, 0x04, &[0x61u8; 256])?;
    refused(&rt, &file[0..259], 0, 2)?;
    file[3] = 0x02;
    reads(&rt, &file, 0, 0x04, &[0x61u8; 258])
}

// The tag of the element at a place, where its content begins and what follows it, as numbers; or the number and the place
// of its refusal.
fn places(file: &[u8], at: usize, end: usize) -> (u8, usize, usize) {
    let mut cursor = Cursor { file, at, end };
    match cursor.element() {
        Ok((tag, content)) => (tag, content.at, content.end),
        Err(refusal) => (u8::from(refusal.reason), refusal.place, 0),
    }
}

// The same of an element whose tag is wanted, without the tag.
fn content(file: &[u8], at: usize, end: usize, wanted: u8) -> (usize, usize) {
    let mut cursor = Cursor { file, at, end };
    match cursor.enter(wanted) {
        Ok(content) => (content.at, content.end),
        Err(refusal) => (usize::from(u8::from(refusal.reason)), refusal.place),
    }
}

#[test]
fn holders(rt: HostRuntime) {
    let file = b"\x30\x03\x04\x02ab\x05";
    // The element of two bytes fits the file, but not its holder, which ends at 5.
    assert_eq!(rt; places(file, 2, 7), (0x04, 4, 6));
    assert_eq!(rt; places(file, 2, 6), (0x04, 4, 6));
    assert_eq!(rt; places(file, 2, 5), (2, 2, 0));
    // Missing length bytes are judged at the holder's end too.
    assert_eq!(rt; places(file, 2, 3), (2, 2, 0));
    assert_eq!(rt; places(file, 2, 2), (4, 2, 0));
    // A holder that is said to end behind the file ends with the file.
    assert_eq!(rt; places(file, 2, usize::MAX), (0x04, 4, 6));
    assert_eq!(rt; places(file, usize::MAX, usize::MAX), (4, usize::MAX, 0));
}

#[test]
fn wanted_tags(rt: HostRuntime) {
    let file = b"\x30\x03\x04\x02ab\x05";
    assert_eq!(rt; content(file, 2, 6, 0x04), (4, 6));
    assert_eq!(rt; content(file, 2, 6, 0x05), (4, 2));
    assert_eq!(rt; content(file, 6, 6, 0x05), (4, 6));
    assert_eq!(rt; content(file, 2, 5, 0x04), (2, 2));
    // A tag that is wanted is only compared.
    assert_eq!(rt; content(b"\x1f\x00", 0, 2, 0x1f), (2, 2));
}

#[test]
fn integers_and_serials(rt: HostRuntime) {
    assert!(rt; !is_integer(b""));
    assert!(rt; is_integer(b"\x00"));
    assert!(rt; is_integer(b"\xff"));
    assert!(rt; !is_integer(b"\x00\x7f"));
    assert!(rt; is_integer(b"\x00\x80"));
    assert!(rt; !is_integer(b"\xff\x80"));
    assert!(rt; is_integer(b"\xff\x7f"));
    assert!(rt; is_integer(b"\x01\x00"));
    // 0 and -1 are no serials, 127 in two bytes is none, 128 is one.
    assert!(rt; !is_serial(b"\x00"));
    assert!(rt; !is_serial(b"\xff"));
    assert!(rt; !is_serial(b"\x00\x7f"));
    assert!(rt; is_serial(b"\x00\x80"));
    assert!(rt; is_serial(b"\x01"));
    assert!(rt; is_serial(&[0x7fu8; 20]));
    assert!(rt; !is_serial(&[0x7fu8; 21]));
    assert!(rt; !is_serial(&[0x80u8; 20]));
}

#[test]
fn booleans(rt: HostRuntime) {
    assert_eq!(rt; boolean_of(b"\xff"), Some(true));
    assert_eq!(rt; boolean_of(b"\x00"), Some(false));
    assert_eq!(rt; boolean_of(b"\x01"), None);
    assert_eq!(rt; boolean_of(b""), None);
    assert_eq!(rt; boolean_of(b"\xff\xff"), None);
}

#[test]
fn identifiers(rt: HostRuntime) {
    assert!(rt; is_identifier(b"\x55\x1d\x11"));
    assert!(rt; is_identifier(b"\x67\x81\x05\x02\x19"));
    assert!(rt; !is_identifier(b""));
    // It ends within a number.
    assert!(rt; !is_identifier(b"\x55\x81"));
    // A number begins with 80: at the front, and behind the end of another.
    assert!(rt; !is_identifier(b"\x80\x01"));
    assert!(rt; !is_identifier(b"\x55\x80\x01"));
    // Within a number 80 may stand.
    assert!(rt; is_identifier(b"\x55\x81\x80\x01"));
    assert!(rt; same_identifier(b"\x55\x1d\x11", b"\x55\x1d\x11"));
    assert!(rt; !same_identifier(b"\x55\x1d\x11", b"\x55\x1d\x20"));
    assert!(rt; !same_identifier(b"\x55\x1d\x11", b"\x55\x1d"));
}

#[test]
fn times(rt: HostRuntime) {
    assert!(rt; is_time(b"20241231235959Z"));
    assert!(rt; is_time(b"00000101000000Z"));
    // No test knows the months' lengths.
    assert!(rt; is_time(b"20240231000000Z"));
    assert!(rt; !is_time(b"20241301000000Z"));
    assert!(rt; !is_time(b"20240001000000Z"));
    assert!(rt; !is_time(b"20240100000000Z"));
    assert!(rt; !is_time(b"20240132000000Z"));
    assert!(rt; !is_time(b"20240101240000Z"));
    assert!(rt; !is_time(b"20240101006000Z"));
    assert!(rt; !is_time(b"20240101000060Z"));
    assert!(rt; !is_time(b"20240101000000z"));
    assert!(rt; !is_time(b"2024010100000Z"));
    assert!(rt; !is_time(b"202401010000000Z"));
    assert!(rt; !is_time(b"2024/101000000Z"));
    assert!(rt; !is_time(b"2024:101000000Z"));
    assert!(rt; !is_time(b""));
}
