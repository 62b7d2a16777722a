//! Runs the worked cases of data/ through the program, over files in memory. Prints a line for each thing that differs, and the count.
#![tactic(auto)]

mod bench;
mod content;
mod looks;
mod strikes;

use bench::Bench;
use std::io::ErrorKind;
use std::{fs, io};

const SUBJECTS: [&str; 14] = [
    "words.txt",
    "plan_files.txt",
    "limits.txt",
    "values.txt",
    "reports.txt",
    "noble.txt",
    "version_two.txt",
    "distributed.txt",
    "extremes.txt",
    "texts.txt",
    "cycles.txt",
    "orders.txt",
    "large.txt",
    "strikes.txt",
];

fn main(rt: HostRuntime) -> io::Result<()> {
    let mut cases = 0u64;
    let mut wrong = 0u64;
    for subject in SUBJECTS {
        let lines = fs::read_to_string(&rt, subject)?;
        let mut bench = Bench::new(rt.alloc());
        for line in lines.lines() {
            if bench.take(line).is_err() {
                return Err(io::Error::from(ErrorKind::OutOfMemory));
            }
        }
        if bench.finish().is_err() {
            return Err(io::Error::from(ErrorKind::OutOfMemory));
        }
        for difference in bench.differences() {
            println!(rt; "{subject}: {difference}")?;
        }
        cases = cases.saturating_add(bench.cases());
        wrong = wrong.saturating_add(bench.wrong());
    }
    println!(rt; "{cases} cases, {wrong} differ")
}
