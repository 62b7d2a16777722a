//! A million samples, of which the program never holds more than a piece.

ghost use Rattle.std.specs.Prelude.{◌≡◌, length};

use filter_core::filter_tool;
use mr_values::{Failed, FaultCounts, Host, OutFail};
use std::alloc::Global;
use std::test::Fail;

const PLAN: &[u8] = b"version = 1\nwidth = 4\n[[element]]\nkind = \"filter\"\ntaps = [0, 4]\n";

/// The bytes of 1,000,000 lines of one digit.
const SAMPLES: usize = 2_000_000;

/// Makes the lines of its samples as they are read, notes the greatest room and the greatest piece, and adds up what is written. It tells
/// no files.
#[derive(Drop)]
struct Flood {
    is_plan: bool,
    left: usize,
    has_input: bool,
    has_output: bool,
    greatest_room: usize,
    greatest_piece: usize,
    sum: u64,
    faults: FaultCounts,
}

// Lines of a 1 from the beginning of the room to its end.
fn fill_lines(room: &mut [u8])
    ensures { length room.new ≡ length room.old }
{
    for place in 0..room.len() {
        room[place] = if place % 2 == 0 { b'1' } else { b'\n' };
    }
}

// The sum of whole lines of one number each.
fn sum_of(lines: &[u8]) -> u64 {
    let mut sum = 0u64;
    let mut number = 0u64;
    for byte in lines {
        if *byte == b'\n' {
            sum = sum.saturating_add(number);
            number = 0;
        } else {
            number = number
                .saturating_mul(10)
                .saturating_add(u64::from(byte.saturating_sub(b'0')));
        }
    }
    sum
}

impl Host for Flood {
    ghost use Rattle.std.specs.Prelude.{false, []};
    ghost use Rattle.std.specs.FinMap.{empty};

    ghost state = { λ host. record { tells = false; has_input = host.has_input; has_output = host.has_output; faults = host.faults; struck = 0; files = empty; input = []; place = 0; output = []; ends = λ _. 0 } };

    fn open_input(&mut self, name: &str) -> Result<(), Failed> {
        self.is_plan = name == "plan";
        self.left = if self.is_plan { PLAN.len() } else { SAMPLES };
        self.has_input = true;
        Ok(())
    }

    fn next(&mut self, room: &mut [u8]) -> Result<usize, Failed> {
        self.greatest_room = room.len().max(self.greatest_room);
        let count = room.len().min(self.left);
        self.left -= count;
        if self.is_plan && count == PLAN.len() {
            room[..count].copy_from_slice(PLAN);
        } else {
            fill_lines(room);
        }
        Ok(count)
    }

    fn open_output(&mut self, _name: &str) -> Result<(), OutFail> {
        self.has_output = true;
        Ok(())
    }

    fn put(&mut self, piece: &[u8]) -> Result<(), OutFail> {
        self.greatest_piece = piece.len().max(self.greatest_piece);
        self.sum = self.sum.saturating_add(sum_of(piece));
        Ok(())
    }
}

fn words(alloc: Global, line: &str) -> Result<Vec<String>, Fail> {
    let mut words = Vec::new(alloc);
    for word in line.split_whitespace() {
        words.push(String::from_str(alloc, word)?)?;
    }
    Ok(words)
}

// Output 0 is 0, and the 999,999 others are 4.
#[test]
fn runs_a_million_samples(rt: HostRuntime) -> Result<(), Fail> {
    let alloc = rt.alloc();
    let mut host = Flood {
        is_plan: false,
        left: 0,
        has_input: false,
        has_output: false,
        greatest_room: 0,
        greatest_piece: 0,
        sum: 0,
        faults: FaultCounts::NONE,
    };
    let outcome = filter_tool(alloc, &words(alloc, "run plan samples out")?, &mut host);
    assert_eq!(rt; outcome.status, 0);
    assert_eq!(rt; host.greatest_room, 65_536);
    assert!(rt; host.greatest_piece > 0 && host.greatest_piece <= 65_536);
    assert_eq!(rt; host.sum, 3_999_996);
    Ok(())
}
