// How long calls take.
use std::io;
use std::time::Instant;

// What some calls took in all, and the sum of what they answered. Who prints the time looks at the sum too, so that no
// call is left out.
#[derive(Clone, Copy)]
pub struct Timing {
    pub nanoseconds: u128,
    pub seen: u64,
}

// Calls `turns` times, with the number of the turn.
pub fn time<F: FnMut(u64) -> u64>(rt: &HostRuntime, turns: u64, mut call: F) -> io::Result<Timing>
    requires { F.IsAlwaysCallable call }
{
    let start = Instant::now(rt)?;
    let mut seen = 0u64;
    for turn in 0..turns {
        seen = seen.wrapping_add(call(turn));
    }
    let nanoseconds = start.elapsed(rt)?.as_nanos();
    Ok(Timing { nanoseconds, seen })
}
