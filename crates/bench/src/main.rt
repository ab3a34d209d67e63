// How long the questions take on a probe report, beside a plain loop over the same bytes, or, as `bench certificate
// FILE`, how long the reading of a platform certificate takes. Without a file it measures nothing: figures differ from
// run to run, and the gate compares what programs print.
#![tactic(auto)]

mod certificate_read;
mod timing;

use crate::timing::time;
use anyhow::{bail, ensure};
use certificate::check::check;
use certificate::kind::Platform;
use model::part::Part;
use parts::audit::audit;
use parts::details::Details;
use parts::inventory::Inventory;
use parts::key::Key;
use parts::walk::walk;
use report::check::check_report;
use report::report::Report;
use std::{env, fs, io};

const TURNS: u64 = 200;

fn main(rt: HostRuntime) -> anyhow::Result<()> {
    run(&rt)
}

fn run(rt: &HostRuntime) -> anyhow::Result<()> {
    let args: Vec<String> = env::args(rt)?.skip(1).collect(rt.alloc())?;
    let words: Vec<&str> = args.iter().map(String::as_str).collect(rt.alloc())?;
    match words.as_slice() {
        [] => println!(rt; "bench REPORT measures the questions of a probe report")?,
        ["certificate", path, ..] => measure_certificate(rt, path)?,
        [path, ..] => measure_report(rt, path)?,
    }
    Ok(())
}

fn measure_certificate(rt: &HostRuntime, path: &str) -> anyhow::Result<()> {
    let file = fs::read(rt, path)?;
    ensure!(
        check::<Platform>(&file).is_ok(),
        "the file is no platform certificate"
    );
    certificate_read::measure(rt, &file)?;
    Ok(())
}

fn measure_report(rt: &HostRuntime, path: &str) -> anyhow::Result<()> {
    let file = fs::read(rt, path)?;
    let Ok(report) = Report::read(&file) else {
        bail!("the file is no probe report");
    };
    let copy = fs::read(rt, path)?;
    let Ok(copy) = Report::read(&copy) else {
        bail!("the file changed while it was read");
    };
    measure(rt, &file, &report, &copy)?;
    Ok(())
}

fn measure(
    rt: &HostRuntime,
    file: &[u8],
    report: &Report<'_>,
    copy: &Report<'_>,
) -> io::Result<()> {
    let plain = spent(rt, |turn| sum(file, turn))?;
    println!(rt; "times of a plain loop over all bytes of the report:")?;
    let check = spent(rt, |_| u64::from(check_report(file).is_ok()))?;
    print_ratio(rt, "check", check, plain)?;
    measure_last(rt, report, plain)?;
    let count = spent(rt, |_| report.count() as u64)?;
    print_ratio(rt, "count", count, plain)?;
    let walk = spent(rt, |_| u64::from(last(report).is_some()))?;
    print_ratio(rt, "walk, all parts", walk, plain)?;
    let differing = spent(rt, |_| u64::from(audit(report, copy).is_none()))?;
    print_ratio(rt, "audit, against a copy", differing, plain)
}

// The questions about the last key; where there is none, nothing is asked and no time spent.
fn measure_last(rt: &HostRuntime, report: &Report<'_>, plain: u128) -> io::Result<()> {
    let (find, next) = match last(report) {
        Some(part) => (
            spent(rt, |_| u64::from(report.find(&part.key).is_some()))?,
            spent(rt, |_| u64::from(report.next(Some(&part.key)).is_none()))?,
        ),
        None => (0, 0),
    };
    print_ratio(rt, "find, of the last key", find, plain)?;
    print_ratio(rt, "next, above the last key", next, plain)
}

// The nanoseconds that the calls took; what they answered is looked at, so that none is left out.
fn spent<F: FnMut(u64) -> u64>(rt: &HostRuntime, call: F) -> io::Result<u128>
    requires { F.IsAlwaysCallable call }
{
    let timing = time(rt, TURNS, call)?;
    if timing.seen == 42 {
        println!(rt; "{}", timing.seen)?;
    }
    Ok(timing.nanoseconds)
}

// The part with the largest key, by a walk over all.
fn last(report: &Report<'_>) -> Option<Part<Key, Details>> {
    walk(report).last()
}

fn sum(file: &[u8], turn: u64) -> u64 {
    let mut total = turn;
    for byte in file {
        total = total.wrapping_mul(3) ^ u64::from(*byte);
    }
    total
}

fn print_ratio(rt: &HostRuntime, what: &str, time: u128, plain: u128) -> io::Result<()> {
    if plain == 0 {
        return println!(rt; "{what}: the clock is too coarse");
    }
    let thousandths = time.saturating_mul(1000) / plain;
    let whole = thousandths / 1000;
    let rest = thousandths % 1000;
    println!(rt; "{what}: {whole}.{rest:03}")
}
