// The conformance run: reads each file that data/ has, by the call of its kind, and prints the answer. What it must print
// was worked out by another reader.
#![tactic(auto)]

mod line;

use crate::line::Line;
use anyhow::bail;
use parts::audit::differences;
use parts::inventory::Inventory;
use parts::walk::walk;
use report::report::Report;
use std::{fs, io};

fn main(rt: HostRuntime) -> anyhow::Result<()> {
    run(&rt)
}

fn run(rt: &HostRuntime) -> anyhow::Result<()> {
    let cases = fs::read_to_string(rt, "cases")?;
    for line in cases.as_str().lines() {
        run_case(rt, line)?;
    }
    Ok(())
}

// A match on the word of the case: a table of functions would be no plainer.
fn run_case(rt: &HostRuntime, line: &str) -> anyhow::Result<()> {
    let mut words = line.split(' ');
    match (words.next(), words.next(), words.next()) {
        (Some("report"), Some(name), None) => print_report(rt, name)?,
        (Some("audit"), Some(name), Some(other)) => print_audit(rt, name, other)?,
        _ => bail!("a case that is not understood"),
    }
    Ok(())
}

fn read(rt: &HostRuntime, name: &str) -> io::Result<Vec<u8>> {
    let path = format!(in rt.alloc(); "{name}.report")?;
    fs::read(rt, path.as_str())
}

fn print_report(rt: &HostRuntime, name: &str) -> io::Result<()> {
    let file = read(rt, name)?;
    match Report::read(&file) {
        Ok(report) => print_parts(rt, name, &report),
        Err(refusal) => println!(rt; "{name}: {}", Line(&refusal)),
    }
}

fn print_parts(rt: &HostRuntime, name: &str, report: &Report<'_>) -> io::Result<()> {
    let count = report.count();
    println!(rt; "{name}: accepted, {count} parts")?;
    for part in walk(report) {
        println!(rt; "  {}", Line(&part))?;
    }
    Ok(())
}

fn print_audit(rt: &HostRuntime, a: &str, b: &str) -> io::Result<()> {
    let left = read(rt, a)?;
    let right = read(rt, b)?;
    println!(rt; "{a} {b}: differences")?;
    // One after the other: where the first is refused, the second is not looked at.
    if let Ok(left) = Report::read(&left) {
        if let Ok(right) = Report::read(&right) {
            print_differences(rt, &left, &right)?;
        }
    }
    println!(rt; "  end")
}

fn print_differences(rt: &HostRuntime, a: &Report<'_>, b: &Report<'_>) -> io::Result<()> {
    for key in differences(a, b) {
        println!(rt; "  {}", Line(&key))?;
    }
    Ok(())
}
