// The commands on probe reports.
use crate::notation::Notation;
use parts::audit::differences;
use parts::inventory::Inventory;
use parts::walk::walk;
use report::report::Report;
use std::io;

// The parts in rising order, a line each, then `end`.
pub fn print_parts(rt: &HostRuntime, report: &Report<'_>) -> io::Result<()> {
    for part in walk(report) {
        println!(rt; "{}", Notation(&part))?;
    }
    println!(rt; "end")
}

// Each key of which the two reports say different things, with both answers, then `end`.
pub fn print_differences(rt: &HostRuntime, a: &Report<'_>, b: &Report<'_>) -> io::Result<()> {
    for key in differences(a, b) {
        let left = a.find(&key);
        let right = b.find(&key);
        println!(rt;
            "{} | {} | {}",
            Notation(&key),
            Notation(&left),
            Notation(&right)
        )?;
    }
    println!(rt; "end")
}
