// A command on hosts of which one call fails.
use filter_core::{Outcome, filter_tool};
use mr_values::{Failed, Host, HostCall, Memory, MemoryHost, OutFail};
use std::alloc::Global;

/// A host in memory that notes the kind of each call. A kind for which there is no memory isn't noted.
#[derive(Drop)]
struct Recorder {
    host: MemoryHost,
    calls: Vec<HostCall>,
}

impl Host for Recorder {
    ghost use Rattle.mr_values.specs.MemoryHost.{host_state};

    ghost state = { λ recorder. host_state recorder.host };

    fn open_input(&mut self, name: &str) -> Result<(), Failed> {
        let _noted = self.calls.push(HostCall::OpenInput);
        self.host.open_input(name)
    }

    fn next(&mut self, room: &mut [u8]) -> Result<usize, Failed> {
        let _noted = self.calls.push(HostCall::Next);
        self.host.next(room)
    }

    fn open_output(&mut self, name: &str) -> Result<(), OutFail> {
        let _noted = self.calls.push(HostCall::OpenOutput);
        self.host.open_output(name)
    }

    fn put(&mut self, piece: &[u8]) -> Result<(), OutFail> {
        let _noted = self.calls.push(HostCall::Put);
        self.host.put(piece)
    }
}

/// A command, the files that are there before it, by their names, and the most bytes that one call reads.
#[derive(Clone, Copy)]
pub struct Struck<'a> {
    pub words: &'a [String],
    pub files: &'a MemoryHost,
    pub names: &'a [String],
    pub piece: usize,
}

impl<'a> Struck<'a> {
    /// What is not as it should be where one call of the host fails, each in turn: the command ends with that call's fault, each output is as it was or
    /// the front of what it holds where none fails, and the other files are as they were.
    pub fn difference(&self, alloc: Global) -> Result<Option<String>, Memory> {
        let mut whole = Recorder {
            host: self.host(alloc)?,
            calls: Vec::new(alloc),
        };
        let outcome = filter_tool(alloc, self.words, &mut whole);
        if outcome.status == 0 && !whole.calls.is_empty() {
            return self.first_difference(alloc, &whole);
        }
        let line = String::from_str(alloc, "isn't done where no call fails")?;
        Ok(Some(line))
    }

    // The files as they are before the command.
    fn host(&self, alloc: Global) -> Result<MemoryHost, Memory> {
        let mut host = MemoryHost::new(alloc);
        if self.piece > 0 {
            host.set_piece(self.piece);
        }
        for name in self.names {
            if let Some(bytes) = self.files.file(name.as_str()) {
                host.add_file(name.as_str(), bytes)?;
            }
        }
        Ok(host)
    }

    // What is not as it should be, by the first call for which something isn't.
    fn first_difference(&self, alloc: Global, whole: &Recorder) -> Result<Option<String>, Memory> {
        for number in 0..whole.calls.len() {
            let found = self.failing(alloc, number, whole)?;
            if found.is_some() {
                return Ok(found);
            }
        }
        Ok(None)
    }

    // What is not as it should be where the call of that number fails.
    fn failing(
        &self,
        alloc: Global,
        number: usize,
        whole: &Recorder,
    ) -> Result<Option<String>, Memory> {
        let mut host = self.host(alloc)?;
        host.fail_call(number as u64)?;
        let outcome = filter_tool(alloc, self.words, &mut host);
        let end = end_of(alloc, &outcome)?;
        if is_struck(alloc, end.as_str(), whole.calls.as_slice(), number)? {
            return self.wrong_file(alloc, number, whole, &host);
        }
        wrong_end(alloc, number, end.as_str())
    }

    // The first file that is not as it should be.
    fn wrong_file(
        &self,
        alloc: Global,
        number: usize,
        whole: &Recorder,
        host: &MemoryHost,
    ) -> Result<Option<String>, Memory> {
        for name in self.names {
            if !self.stands(name.as_str(), whole, host) {
                return wrong_name(alloc, number, name.as_str());
            }
        }
        for name in self.words {
            if !self.stands(name.as_str(), whole, host) {
                return wrong_name(alloc, number, name.as_str());
            }
        }
        Ok(None)
    }

    // Whether a file is as it was before, or a front of what the whole command makes of it.
    fn stands(&self, name: &str, whole: &Recorder, host: &MemoryHost) -> bool {
        let before = self.files.file(name);
        let now = host.file(name);
        if now == before {
            return true;
        }
        match (whole.host.file(name), now) {
            (Some(whole), Some(now)) => before != Some(whole) && whole.starts_with(now),
            _ => false,
        }
    }
}

/// How a command ended: its status, and its fault where there is one.
pub fn end_of(alloc: Global, outcome: &Outcome) -> Result<String, Memory> {
    let end = match &outcome.fault {
        Some(fault) => format!(in alloc; "{} {fault}", outcome.status)?,
        None => format!(in alloc; "{}", outcome.status)?,
    };
    Ok(end)
}

// Whether a command ends so where the call of that number fails.
fn is_struck(alloc: Global, end: &str, calls: &[HostCall], number: usize) -> Result<bool, Memory> {
    if number >= calls.len() {
        return Ok(false);
    }
    let call = calls[number];
    let wanted = format!(in alloc; "3 HostFault call={call}")?;
    Ok(end == wanted.as_str())
}

fn wrong_end(alloc: Global, number: usize, end: &str) -> Result<Option<String>, Memory> {
    let line = format!(in alloc; "ends {end} where call {number} fails")?;
    Ok(Some(line))
}

fn wrong_name(alloc: Global, number: usize, name: &str) -> Result<Option<String>, Memory> {
    let line = format!(in alloc; "{name} is wrong where call {number} fails")?;
    Ok(Some(line))
}
