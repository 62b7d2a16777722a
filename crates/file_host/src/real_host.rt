// The files of the system. It tells no files.
ghost use Rattle.std.specs.Prelude.{◌≡◌, ◌≤◌, true, length, is_err, is_ok, is_some, IsTrue, IfOk, IfSome, OnOk};
ghost use Rattle.mr_values.specs.Host.{HasCause, Reads, Appends, has_failed};
ghost use Rattle.file_host.specs.Taken.{IsTaken, IsGiven};
ghost use Rattle.file_host.specs.Open.{untold};

use mr_values::{Failed, FaultCounts, Host, HostCall, OutFail};
use std::fs;
use std::io::{Read, Write};
use std::rt::Files;

/// The files of the system as a host: the file that is read, the file that is written, and how often each call has failed.
#[derive(Drop)]
pub struct RealHost<'a, R: Files> {
    pub rt: &'a R,
    pub input: Option<R::File>,
    pub output: Option<R::File>,
    pub faults: FaultCounts,
}

impl<'a, R: Files> RealHost<'a, R> {
    /// A host of which no file is open and no call has failed.
    pub fn new(rt: &'a R) -> Self {
        RealHost {
            rt,
            input: None,
            output: None,
            faults: FaultCounts::NONE,
        }
    }
}

impl<'a, R: Files> Host for RealHost<'a, R> {
    ghost state = { λ host. untold (is_some host.input) (is_some host.output) host.faults };

    fn open_input(&mut self, name: &str) -> Result<(), Failed> {
        match fs::open(self.rt, name) {
            Ok(file) => {
                self.input = Some(file);
                Ok(())
            }
            Err(_) => {
                self.input = None;
                self.faults.raise(HostCall::OpenInput);
                Err(Failed)
            }
        }
    }

    // The last clause is this host's own: no byte that was read is lost.
    fn next(&mut self, room: &mut [u8]) -> Result<usize, Failed>
        requires { (untold (is_some self.old.input) (is_some self.old.output) self.old.faults).has_input ≡ true }
        ensures cause { HasCause HostCall.Next (is_err result) (untold (is_some self.old.input) (is_some self.old.output) self.old.faults) (untold (is_some self.new.input) (is_some self.new.output) self.new.faults) }
        ensures within { IfOk result (λ count. count ≤ length room.new) }
        ensures input { OnOk result ((untold (is_some self.new.input) (is_some self.new.output) self.new.faults).has_input ≡ true) }
        ensures output { (untold (is_some self.new.input) (is_some self.new.output) self.new.faults).has_output ≡ (untold (is_some self.old.input) (is_some self.old.output) self.old.faults).has_output }
        ensures told { IsTrue (untold (is_some self.old.input) (is_some self.old.output) self.old.faults).tells → Reads room.new result (untold (is_some self.old.input) (is_some self.old.output) self.old.faults) (untold (is_some self.new.input) (is_some self.new.output) self.new.faults) }
        ensures given { IfSome self.old.input (λ old. IfSome self.new.input (λ new. IsGiven result room.new (R.File.remaining old) (R.File.remaining new))) }
    {
        let read = match &mut self.input {
            Some(file) => file.read(room),
            None => unreachable!(),
        };
        match read {
            Ok(count) => Ok(count),
            Err(_) => {
                self.faults.raise(HostCall::Next);
                Err(Failed)
            }
        }
    }

    fn open_output(&mut self, name: &str) -> Result<(), OutFail> {
        match fs::create(self.rt, name) {
            Ok(file) => {
                self.output = Some(file);
                Ok(())
            }
            Err(_) => {
                self.output = None;
                self.faults.raise(HostCall::OpenOutput);
                Err(OutFail::Failed)
            }
        }
    }

    // The last clause is this host's own: where all is well the writer has taken the whole piece.
    fn put(&mut self, piece: &[u8]) -> Result<(), OutFail>
        requires { (untold (is_some self.old.input) (is_some self.old.output) self.old.faults).has_output ≡ true }
        ensures cause { HasCause HostCall.Put (has_failed result) (untold (is_some self.old.input) (is_some self.old.output) self.old.faults) (untold (is_some self.new.input) (is_some self.new.output) self.new.faults) }
        ensures output { OnOk result ((untold (is_some self.new.input) (is_some self.new.output) self.new.faults).has_output ≡ true) }
        ensures input { (untold (is_some self.new.input) (is_some self.new.output) self.new.faults).has_input ≡ (untold (is_some self.old.input) (is_some self.old.output) self.old.faults).has_input }
        ensures told { IsTrue (untold (is_some self.old.input) (is_some self.old.output) self.old.faults).tells → Appends piece.now result (untold (is_some self.old.input) (is_some self.old.output) self.old.faults) (untold (is_some self.new.input) (is_some self.new.output) self.new.faults) }
        ensures taken { IfSome self.old.output (λ old. IfSome self.new.output (λ new. IsTaken (is_ok result) piece.now (R.File.contents old) (R.File.contents new))) }
    {
        let written = match &mut self.output {
            Some(file) => write_whole(file, piece),
            None => unreachable!(),
        };
        if written {
            Ok(())
        } else {
            self.faults.raise(HostCall::Put);
            Err(OutFail::Failed)
        }
    }
}

/// Writes all the bytes. A write that takes nothing has failed.
pub fn write_whole<W: Write>(file: &mut W, piece: &[u8]) -> bool
    ensures { IsTaken result piece.now (W.contents file.old) (W.contents file.new) }
{
    let mut rest = piece;
    while !rest.is_empty() {
        match file.write(rest) {
            Ok(count) => {
                if count == 0 {
                    return false;
                }
                rest = &rest[count..];
            }
            Err(_) => return false,
        }
    }
    true
}

#[cfg(test)]
mod tests {
    use super::*;
    use std::io;
    use std::test::Fail;

    #[test]
    fn reads_what_it_wrote(rt: HostRuntime) -> Result<(), Fail> {
        let mut host = RealHost::new(&rt);
        host.open_output("real_host_test.txt").ok().ok_or("create")?;
        host.put(b"two ").ok().ok_or("put")?;
        host.put(b"pieces").ok().ok_or("put")?;
        host.open_input("real_host_test.txt").ok().ok_or("open")?;
        let mut room = [0; 4];
        let first = host.next(&mut room).ok().ok_or("next")?;
        assert_eq!(rt; first, 4);
        assert_eq!(rt; &room, b"two ");
        let second = host.next(&mut room).ok().ok_or("next")?;
        assert_eq!(rt; second, 4);
        assert_eq!(rt; &room, b"piec");
        let third = host.next(&mut room).ok().ok_or("next")?;
        assert_eq!(rt; third, 2);
        assert_eq!(rt; &room[..2], b"es".as_slice());
        assert_eq!(rt; host.next(&mut room), Ok(0));
        assert_eq!(rt; host.open_input("no such file"), Err(Failed));
        assert_eq!(rt; host.faults.open_input, 1);
        Ok(())
    }

    /// Takes one byte at a time, and nothing once it is full.
    #[derive(Drop)]
    struct Narrow {
        taken: [u8; 3],
        count: usize,
    }

    impl Write for Narrow {
        fn write(&mut self, bytes: &[u8]) -> io::Result<usize> {
            if self.count >= 3 || bytes.is_empty() {
                return Ok(0);
            }
            self.taken[self.count] = bytes[0];
            self.count += 1;
            Ok(1)
        }

        fn flush(&mut self) -> io::Result<()> {
            Ok(())
        }
    }

    #[test]
    fn a_writer_that_takes_nothing_has_failed(rt: HostRuntime) -> Result<(), Fail> {
        let mut narrow = Narrow {
            taken: [0; 3],
            count: 0,
        };
        assert!(rt; write_whole(&mut narrow, b"ab"));
        assert!(rt; !write_whole(&mut narrow, b"cd"));
        assert_eq!(rt; narrow.taken.as_slice(), b"abc".as_slice());
        Ok(())
    }
}
