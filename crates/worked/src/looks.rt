// What a case may say of a file besides its bytes.
use mr_values::Memory;
use plan_check::check_plan;
use plan_reader::{plan_text, read_plan};
use std::alloc::Global;
use std::str;

/// What stands before the first blank, and what stands behind it.
pub fn first_word(text: &str) -> (&str, &str) {
    match text.split_once(' ') {
        Some(parts) => parts,
        None => (text, ""),
    }
}

/// Whether one of the lines is this one.
pub fn has_line(file: &[u8], wanted: &str) -> bool {
    let Ok(text) = str::from_utf8(file) else {
        return false;
    };
    for line in text.lines() {
        if line == wanted {
            return true;
        }
    }
    false
}

/// Whether that many lines hold the words behind the count, where `+` is any count but 0.
pub fn has_lines(file: &[u8], wanted: &str) -> bool {
    let Ok(text) = str::from_utf8(file) else {
        return false;
    };
    let (count, words) = first_word(wanted);
    let mut found = 0u32;
    for line in text.lines() {
        if line.contains(words) {
            found = found.saturating_add(1);
        }
    }
    if count == "+" {
        found > 0
    } else {
        count.parse::<u32>() == Ok(found)
    }
}

/// Whether the file is an accepted plan of this latency, period, bound (or `none`) and shift, with a blank between them.
pub fn is_accepted(alloc: Global, file: &[u8], wanted: &str) -> Result<bool, Memory> {
    let Ok(read) = read_plan(alloc, file) else {
        return Ok(false);
    };
    let Ok(facts) = check_plan(alloc, &read.plan) else {
        return Ok(false);
    };
    let bound = match facts.bound {
        Some(bound) => format!(in alloc; "{bound}")?,
        None => format!(in alloc; "none")?,
    };
    let numbers = format!(in alloc;
        "{} {} {bound} {}",
        facts.latency, facts.period, facts.shift
    )?;
    Ok(numbers.as_str() == wanted)
}

/// Whether both files read as the same plan, in the same version.
pub fn is_same_plan(alloc: Global, one: &[u8], other: &[u8]) -> Result<bool, Memory> {
    let (Ok(one), Ok(other)) = (read_plan(alloc, one), read_plan(alloc, other)) else {
        return Ok(false);
    };
    let one = plan_text(alloc, one.version, &one.plan)?;
    let other = plan_text(alloc, other.version, &other.plan)?;
    Ok(one.as_slice() == other.as_slice())
}
