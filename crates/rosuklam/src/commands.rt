// The commands of the program.
use crate::help::HELP;
use crate::problem::{Fault, Problem};
use crate::reports::{print_differences, print_parts};
use crate::tree::print_tree;
use der::cursor::Cursor;
use der::element::read_element;
use report::report::Report;
use std::{env, fs};

pub fn run(rt: &HostRuntime) -> Result<(), Problem> {
    let args: Vec<String> = env::args(rt)?.skip(1).collect(rt.alloc())?;
    let words: Vec<&str> = args.iter().map(String::as_str).collect(rt.alloc())?;
    match words.as_slice() {
        ["batch", operands @ ..] => batch(rt, operands),
        words => answer(rt, words),
    }
}

// Runs the commands that a file has, one to a line. Their failures are part of what is printed.
fn batch(rt: &HostRuntime, operands: &[&str]) -> Result<(), Problem> {
    let [path] = operands else {
        return Err(Problem::Misused("'batch' takes one file"));
    };
    let text = fs::read_to_string(rt, *path).try_map_err(|error| of_file(
        rt,
        path,
        Fault::Unreadable(error),
    ))?;
    for line in text.as_str().lines() {
        println!(rt; "> {line}")?;
        let words: Vec<&str> = line.split(' ').collect(rt.alloc())?;
        match answer(rt, &words) {
            Ok(()) => {}
            Err(Problem::Io(error)) => return Err(Problem::Io(error)),
            Err(problem) => {
                problem.print(rt)?;
                println!(rt; "status 1")?;
            }
        }
    }
    Ok(())
}

// A match on the word: a table of functions would be no plainer.
fn answer(rt: &HostRuntime, words: &[&str]) -> Result<(), Problem> {
    let Some((command, operands)) = words.split_first() else {
        return Err(Problem::Misused("no command is given"));
    };
    match *command {
        "--help" | "-h" | "help" => Ok(rt.print(HELP)?),
        "elements" => elements(rt, operands),
        "element" => element(rt, operands),
        "report" => report(rt, operands),
        "audit" => audit(rt, operands),
        other => Err(Problem::UnknownCommand(String::from_str(rt.alloc(), other)?)),
    }
}

fn elements(rt: &HostRuntime, operands: &[&str]) -> Result<(), Problem> {
    let [path] = operands else {
        return Err(Problem::Misused("'elements' takes one file"));
    };
    print_tree(rt, &read(rt, path)?)
}

fn element(rt: &HostRuntime, operands: &[&str]) -> Result<(), Problem> {
    let [path, place] = operands else {
        return Err(Problem::Misused("'element' takes a file and an offset"));
    };
    let Ok(place) = place.parse::<usize>() else {
        return Err(Problem::Misused("the offset is no decimal number"));
    };
    let file = read(rt, path)?;
    let element = read_element(&file, place)?;
    let mut cursor = Cursor {
        at: place,
        ..Cursor::new(&file)
    };
    let (_, content) = cursor.element()?;
    println!(rt;
        "tag {:02X}, content {} to {}",
        element.tag, content.at, content.end
    )?;
    Ok(())
}

fn report(rt: &HostRuntime, operands: &[&str]) -> Result<(), Problem> {
    let [path] = operands else {
        return Err(Problem::Misused("'report' takes one probe report"));
    };
    let file = read(rt, path)?;
    print_parts(rt, &Report::read(&file)?)?;
    Ok(())
}

fn audit(rt: &HostRuntime, operands: &[&str]) -> Result<(), Problem> {
    let [first, second] = operands else {
        return Err(Problem::Misused("'audit' takes two probe reports"));
    };
    let left = read(rt, first)?;
    let right = read(rt, second)?;
    let left = report_in(rt, first, &left)?;
    let right = report_in(rt, second, &right)?;
    print_differences(rt, &left, &right)?;
    Ok(())
}

fn read(rt: &HostRuntime, path: &str) -> Result<Vec<u8>, Problem> {
    fs::read(rt, path).try_map_err(|error| of_file(rt, path, Fault::Unreadable(error)))
}

// One of several reports, so a refusal names its path.
fn report_in<'a>(rt: &HostRuntime, path: &str, file: &'a [u8]) -> Result<Report<'a>, Problem> {
    Report::read(file).try_map_err(|refusal| of_file(rt, path, Fault::Refused(refusal)))
}

// The path is copied, for which memory may run out: that is then the problem.
fn of_file(rt: &HostRuntime, path: &str, fault: Fault) -> Result<Problem, Problem> {
    let path = String::from_str(rt.alloc(), path)?;
    Ok(Problem::OfFile { path, fault })
}
