// Small configurations, worked out by hand.
use crate::configuration::read_configuration;
use crate::list::listed;
use der::cursor::Cursor;
use reader::kind::Kind;
use reader::span::Span;

// One component with no optional field.
const PLAIN: [u8; 31] = [
    0x30, 0x1d, 0xa0, 0x1b, 0x30, 0x19, 0x30, 0x0e, 0x06, 0x06, 0x67, 0x81, 0x05, 0x12, 0x03, 0x01,
    0x04, 0x04, 0x00, 0x00, 0x00, 0x01, 0x0c, 0x01, 0x41, 0x0c, 0x01, 0x42, 0x80, 0x01, 0x43,
];

// The same with replaceable and status.
const CHANGED: [u8; 37] = [
    0x30, 0x23, 0xa0, 0x21, 0x30, 0x1f, 0x30, 0x0e, 0x06, 0x06, 0x67, 0x81, 0x05, 0x12, 0x03, 0x01,
    0x04, 0x04, 0x00, 0x00, 0x00, 0x01, 0x0c, 0x01, 0x41, 0x0c, 0x01, 0x42, 0x80, 0x01, 0x43, 0x83,
    0x01, 0xff, 0x87, 0x01, 0x02,
];

// Number and place of the refusal; of a list that was read, 0 and the number of components.
fn told(file: &[u8], kind: Kind) -> (u8, usize) {
    match read_configuration(&mut Cursor::new(file), kind) {
        Ok(components) => (0, components.count),
        Err(refusal) => (u8::from(refusal.reason), refusal.place),
    }
}

#[test]
fn kinds_ask_for_status(rt: HostRuntime) {
    assert_eq!(rt; told(&PLAIN, Kind::Platform), (0, 1));
    assert_eq!(rt; told(&PLAIN, Kind::Delta), (13, 4));
    assert_eq!(rt; told(&CHANGED, Kind::Delta), (0, 1));
    assert_eq!(rt; told(&CHANGED, Kind::Platform), (13, 4));
}

#[test]
fn first_fault_counts(rt: HostRuntime) {
    let mut file = PLAIN;
    // The registry of the IETF is none of the four.
    file[15] = 2;
    assert_eq!(rt; told(&file, Kind::Platform), (6, 8));
    file[15] = 1;
    // Another tag stands where the serial text should.
    file[28] = 0x81;
    assert_eq!(rt; told(&file, Kind::Platform), (4, 28));
    file[28] = 0x80;
    file[2] = 0xa1;
    assert_eq!(rt; told(&file, Kind::Platform), (4, 2));
}

#[test]
fn lists_as_its_kind_reads(rt: HostRuntime) {
    let list = Span { from: 4, to: 31 };
    let mut components = listed(&PLAIN, list, Kind::Platform);
    assert!(rt; components.next().is_some());
    assert!(rt; components.next().is_none());
    assert!(rt; listed(&PLAIN, list, Kind::Delta).next().is_none());
}
