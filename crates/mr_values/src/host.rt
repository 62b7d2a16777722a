// The outside, as the program sees it: named files, one of which is read and one written at a time.
ghost use Rattle.std.specs.Prelude.{◌≡◌, ◌≤◌, length, true, false, is_err, IsTrue, IfOk, OnOk, OnErr};
ghost use Rattle.mr_values.specs.Faults.{RaisesOnly};
ghost use Rattle.mr_values.specs.Host.{HostState, HasCause, OpensInput, Reads, OpensOutput, Appends, has_failed};

use std::fmt;

/// A call of the host failed.
#[derive(Clone, Copy, Debug, PartialEq, Eq)]
pub struct Failed;

#[derive(Clone, Copy, Debug, PartialEq, Eq)]
pub enum OutFail {
    Failed,
    Memory,
}

#[derive(Clone, Copy, Debug, PartialEq, Eq)]
pub enum HostCall {
    OpenInput,
    Next,
    OpenOutput,
    Put,
}

impl fmt::Display for HostCall {
    ghost use Rattle.std.specs.Prelude.{Some};
    ghost use Rattle.mr_values.specs.CallNames.{call_text};

    ghost output = { λ call. Some (call_text call) };

    fn fmt<W: fmt::Write>(&self, f: &mut fmt::Formatter<W>) -> fmt::Result {
        match self {
            HostCall::OpenInput => write!(f, "OpenInput"),
            HostCall::Next => write!(f, "Next"),
            HostCall::OpenOutput => write!(f, "OpenOutput"),
            HostCall::Put => write!(f, "Put"),
        }
    }
}

/// How often each call of a host has failed.
#[derive(Clone, Copy, Debug, PartialEq, Eq)]
pub struct FaultCounts {
    pub open_input: u64,
    pub next: u64,
    pub open_output: u64,
    pub put: u64,
}

impl FaultCounts {
    pub const NONE: FaultCounts = FaultCounts {
        open_input: 0,
        next: 0,
        open_output: 0,
        put: 0,
    };

    /// Counts one more fault of a call. A count stays at its greatest number.
    pub fn raise(&mut self, call: HostCall)
        ensures { RaisesOnly call self.old self.new }
    {
        match call {
            HostCall::OpenInput => self.open_input = self.open_input.saturating_add(1),
            HostCall::Next => self.next = self.next.saturating_add(1),
            HostCall::OpenOutput => self.open_output = self.open_output.saturating_add(1),
            HostCall::Put => self.put = self.put.saturating_add(1),
        }
    }
}

pub trait Host {
    /// What a contract sees of a host. Its files, and what goes with them, count only where it tells them.
    ghost state: { Self → HostState };

    /// Makes the named file the input, at its beginning.
    fn open_input(&mut self, name: &str) -> Result<(), Failed>
        ensures cause { HasCause HostCall.OpenInput (is_err result) (state self.old) (state self.new) }
        ensures opened { OnOk result ((state self.new).has_input ≡ true) }
        ensures refused { OnErr result ((state self.new).has_input ≡ false) }
        ensures output { (state self.new).has_output ≡ (state self.old).has_output }
        ensures told { IsTrue (state self.old).tells → OpensInput name.now result (state self.old) (state self.new) };

    /// Copies the next bytes of the input, and answers their number. 0 in a room that isn't empty means the end.
    fn next(&mut self, room: &mut [u8]) -> Result<usize, Failed>
        requires { (state self.old).has_input ≡ true }
        ensures cause { HasCause HostCall.Next (is_err result) (state self.old) (state self.new) }
        ensures within { IfOk result (λ count. count ≤ length room.new) }
        ensures input { OnOk result ((state self.new).has_input ≡ true) }
        ensures output { (state self.new).has_output ≡ (state self.old).has_output }
        ensures told { IsTrue (state self.old).tells → Reads room.new result (state self.old) (state self.new) };

    /// Makes the named file, or empties it, and makes it the output.
    fn open_output(&mut self, name: &str) -> Result<(), OutFail>
        ensures cause { HasCause HostCall.OpenOutput (has_failed result) (state self.old) (state self.new) }
        ensures opened { OnOk result ((state self.new).has_output ≡ true) }
        ensures refused { OnErr result ((state self.new).has_output ≡ false) }
        ensures input { (state self.new).has_input ≡ (state self.old).has_input }
        ensures told { IsTrue (state self.old).tells → OpensOutput name.now result (state self.old) (state self.new) };

    /// Appends to the output. A refused piece may have been appended in part.
    fn put(&mut self, piece: &[u8]) -> Result<(), OutFail>
        requires { (state self.old).has_output ≡ true }
        ensures cause { HasCause HostCall.Put (has_failed result) (state self.old) (state self.new) }
        ensures output { OnOk result ((state self.new).has_output ≡ true) }
        ensures input { (state self.new).has_input ≡ (state self.old).has_input }
        ensures told { IsTrue (state self.old).tells → Appends piece.now result (state self.old) (state self.new) };
}
