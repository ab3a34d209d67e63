// The reading of a platform certificate: its check and its making, and a find in the bottom made from it.
use crate::timing::time;
use certificate::bottom::Bottom;
use certificate::read::ReadPlatform;
use parts::inventory::{Inventory, first};
use std::io;

const TURNS: u64 = 2000;

pub fn measure(rt: &HostRuntime, file: &[u8]) -> io::Result<()> {
    print_time(rt, "check and making", |_| issuer_length(file))?;
    let Ok(read) = ReadPlatform::read(file) else {
        return Ok(());
    };
    let Ok(vouched) = read.vouch(true) else {
        return Ok(());
    };
    let bottom = Bottom::make(vouched);
    let Some(part) = first(&bottom) else {
        return Ok(());
    };
    print_time(rt, "find", |_| u64::from(bottom.find(&part.key).is_some()))?;
    print_time(
        rt,
        "next",
        |_| u64::from(bottom.next(Some(&part.key)).is_some()),
    )
}

// What is read is looked at, so that nothing is left out.
fn issuer_length(file: &[u8]) -> u64 {
    match ReadPlatform::read(file) {
        Ok(read) => read.certificate().issuer().len() as u64,
        Err(_) => 0,
    }
}

fn print_time<F: FnMut(u64) -> u64>(rt: &HostRuntime, what: &str, call: F) -> io::Result<()>
    requires { F.IsAlwaysCallable call }
{
    let timing = time(rt, TURNS, call)?;
    let each = timing.nanoseconds / u128::from(TURNS);
    println!(rt; "{what}: {each} ns each ({})", timing.seen)
}
