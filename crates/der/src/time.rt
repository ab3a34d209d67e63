// The rule of times.
ghost use Rattle.std.specs.Prelude.{◌≡◌, ◌+◌, ◌<◌, length, Decides};
ghost use Rattle.der.specs.Times.{Time, is_time, is_time_shaped, is_in_calendar, is_on_clock, all_digits, two_digits, is_between};

// The bytes of YYYYMMDDHHMMSSZ.
const TIME_BYTES: usize = 15;

// Whether bytes are the content of a GeneralizedTime, YYYYMMDDHHMMSSZ, each number in its range.
pub fn is_time(content: &[u8]) -> bool
    ensures is { result ≡ is_time content.now }
    ensures means { Decides result (Time content.now) }
{
    match <&[u8; TIME_BYTES]>::try_from(content) {
        Ok(time) => is_time_shaped(time) && is_in_calendar(time) && is_on_clock(time),
        Err(_) => false,
    }
}

// Fourteen digits and Z.
fn is_time_shaped(time: &[u8; TIME_BYTES]) -> bool
    ensures { result ≡ is_time_shaped time.now }
{
    all_digits(&time[..14]) && time[14] == b'Z'
}

// Month and day.
fn is_in_calendar(time: &[u8; TIME_BYTES]) -> bool
    ensures { result ≡ is_in_calendar time.now }
{
    in_range(time, 4, 1, 12) && in_range(time, 6, 1, 31)
}

// Hour, minute and second.
fn is_on_clock(time: &[u8; TIME_BYTES]) -> bool
    ensures { result ≡ is_on_clock time.now }
{
    in_range(time, 8, 0, 23) && in_range(time, 10, 0, 59) && in_range(time, 12, 0, 59)
}

fn all_digits(bytes: &[u8]) -> bool
    ensures { result ≡ all_digits bytes.now }
{
    bytes.iter().all(u8::is_ascii_digit)
}

// Whether the number that two digits stand for lies from `low` to `high`.
fn in_range(time: &[u8; TIME_BYTES], at: usize, low: u32, high: u32) -> bool
    requires { at < 14 }
    ensures { result ≡ is_between low (two_digits time.now at) high }
{
    let tens = u32::from(time[at].saturating_sub(b'0'));
    let ones = u32::from(time[at + 1].saturating_sub(b'0'));
    (low..=high).contains(&(tens * 10 + ones))
}
