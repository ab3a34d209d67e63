// Edges of the makings and of the order of keys, worked out by hand.
use crate::details::Details;
use crate::key::Key;
use der::refusal::Refusal;
use std::cmp::Ordering;

// 0 at 0 for a value that was made, else the refusal's number and place.
fn told<T: Drop>(answer: Result<T, Refusal>) -> (u8, usize) {
    match answer {
        Ok(_) => (0, 0),
        Err(refusal) => (u8::from(refusal.reason), refusal.place),
    }
}

#[test]
fn keys_made(rt: HostRuntime) {
    let class = [0u8; 4];
    assert_eq!(rt; told(Key::new(1, class, b"A", b"B", b"C")), (0, 0));
    assert_eq!(rt;
        told(Key::new(4, class, &[1; 64], &[2; 64], &[3; 64])),
        (0, 0)
    );
    assert_eq!(rt; told(Key::new(0, class, b"A", b"B", b"C")), (6, 0));
    assert_eq!(rt; told(Key::new(5, class, b"A", b"B", b"C")), (6, 0));
    assert_eq!(rt; told(Key::new(1, class, b"", b"B", b"C")), (7, 2));
    assert_eq!(rt; told(Key::new(1, class, b"A", &[2; 65], b"C")), (7, 3));
    assert_eq!(rt; told(Key::new(1, class, b"A", b"B", b"")), (7, 4));
    // The first faulty field counts.
    assert_eq!(rt; told(Key::new(9, class, b"", b"", b"")), (6, 0));
    assert_eq!(rt; told(Key::new(1, class, b"A", b"", b"")), (7, 3));
}

#[test]
fn details_made(rt: HostRuntime) {
    assert_eq!(rt; told(Details::new(b"", 0)), (0, 0));
    assert_eq!(rt; told(Details::new(&[7; 64], 2)), (0, 0));
    assert_eq!(rt; told(Details::new(&[7; 65], 2)), (7, 0));
    assert_eq!(rt; told(Details::new(b"r1", 3)), (6, 1));
    assert_eq!(rt; told(Details::new(&[7; 65], 3)), (7, 0));
}

// 0, 1 or 2 where the first is less, equal or greater.
fn ranked(a: Result<Key, Refusal>, b: Result<Key, Refusal>) -> u8 {
    let Ok(a) = a else {
        return 8;
    };
    let Ok(b) = b else {
        return 9;
    };
    match a.compare(&b) {
        Ordering::Less => 0,
        Ordering::Equal => 1,
        Ordering::Greater => 2,
    }
}

#[test]
fn keys_ordered(rt: HostRuntime) {
    let low = [0, 0, 1, 0];
    let high = [0, 1, 0, 0];
    assert_eq!(rt;
        ranked(
            Key::new(1, low, b"A", b"B", b"C"),
            Key::new(1, low, b"A", b"B", b"C"),
        ),
        1
    );
    // The registry comes first, then the class, high byte first, then the texts in turn.
    assert_eq!(rt;
        ranked(
            Key::new(1, high, b"Z", b"B", b"C"),
            Key::new(2, low, b"A", b"B", b"C"),
        ),
        0
    );
    assert_eq!(rt;
        ranked(
            Key::new(2, high, b"A", b"B", b"C"),
            Key::new(2, low, b"Z", b"B", b"C"),
        ),
        2
    );
    assert_eq!(rt;
        ranked(
            Key::new(1, low, b"A", b"Z", b"C"),
            Key::new(1, low, b"B", b"B", b"C"),
        ),
        0
    );
    assert_eq!(rt;
        ranked(
            Key::new(1, low, b"A", b"B", b"Z"),
            Key::new(1, low, b"A", b"C", b"A"),
        ),
        0
    );
    assert_eq!(rt;
        ranked(
            Key::new(1, low, b"A", b"B", b"D"),
            Key::new(1, low, b"A", b"B", b"C"),
        ),
        2
    );
    // A proper beginning comes first, also before a zero byte.
    assert_eq!(rt;
        ranked(
            Key::new(1, low, b"A", b"B", b"C"),
            Key::new(1, low, b"A", b"B", b"C\x00"),
        ),
        0
    );
    assert_eq!(rt;
        ranked(
            Key::new(1, low, b"AB", b"B", b"C"),
            Key::new(1, low, b"B", b"B", b"C"),
        ),
        0
    );
}
