// The lines of a case that say what a file holds.
use mr_values::Memory;
use std::alloc::Global;

/// Adds what the line says to the bytes, if it is such a line. Its first character says how:
/// `|` the rest and a line feed, `:` the rest alone, `%` the byte of that number, and with a count and a blank before the rest
/// `=` so many lines, `*` the rest so many times, `@` so many lines in which `{n}` is the line's number from 1 and `{p}` the one before.
pub fn add_content(alloc: Global, line: &str, bytes: &mut Vec<u8>) -> Result<bool, Memory> {
    if let Some(rest) = line.strip_prefix('|') {
        add_line(rest, bytes)?;
    } else if let Some(rest) = line.strip_prefix(':') {
        bytes.extend_from_slice(rest.as_bytes())?;
    } else if let Some(rest) = line.strip_prefix('%') {
        bytes.push(rest.parse::<u8>().unwrap_or(b'?'))?;
    } else if let Some(rest) = line.strip_prefix('=') {
        let (count, rest) = counted(rest);
        for _ in 0..count {
            add_line(rest, bytes)?;
        }
    } else if let Some(rest) = line.strip_prefix('*') {
        let (count, rest) = counted(rest);
        for _ in 0..count {
            bytes.extend_from_slice(rest.as_bytes())?;
        }
    } else if let Some(rest) = line.strip_prefix('@') {
        let (count, rest) = counted(rest);
        for before in 0..count {
            add_numbered(alloc, rest, before, bytes)?;
        }
    } else {
        return Ok(false);
    }
    Ok(true)
}

fn add_line(text: &str, bytes: &mut Vec<u8>) -> Result<(), Memory> {
    bytes.extend_from_slice(text.as_bytes())?;
    bytes.push(b'\n')?;
    Ok(())
}

fn add_numbered(alloc: Global, text: &str, before: u32, bytes: &mut Vec<u8>) -> Result<(), Memory> {
    let number = format!(in alloc; "{}", before.saturating_add(1))?;
    let previous = format!(in alloc; "{before}")?;
    let text = text.replace(alloc, "{n}", number.as_str())?;
    let text = text.replace(alloc, "{p}", previous.as_str())?;
    add_line(text.as_str(), bytes)
}

// The count before the first blank, 0 where there is none, and what stands behind it.
fn counted(text: &str) -> (u32, &str) {
    match text.split_once(' ') {
        Some((count, rest)) => (count.parse::<u32>().unwrap_or(0), rest),
        None => (0, text),
    }
}
