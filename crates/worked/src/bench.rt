// Runs the lines of cases.
//
// case TITLE            begins a case, with no files
// file NAME             a file of the case; the lines of its content follow (content.rt)
// front NAME COUNT OF   a file that has the first bytes of another
// pieces SIZE           at most so many bytes are read at once
// failing NUMBER        this call of the host fails, counted from 0
// do WORDS              does a command
// strikes WORDS         does a command on copies of the files, with each call of the host failing in turn, as strikes.rt says
// ends STATUS FAULT     how it must have ended
// holds NAME            the file must hold the content that follows, byte for byte
// lacks NAME            there must be no such file
// line NAME LINE        the file must have this line
// lines NAME COUNT TEXT so many of its lines must have this text in them, or some where the count is +
// reads NAME OTHER      both must read as the same plan
// accepts NAME NUMBERS  the file must be an accepted plan with this latency, period, bound and shift
use crate::content::add_content;
use crate::looks::{first_word, has_line, has_lines, is_accepted, is_same_plan};
use crate::strikes::{Struck, end_of};
use filter_core::filter_tool;
use mr_values::{Memory, MemoryHost};
use std::alloc::Global;
use std::mem;

/// What the lines of a content are: of no file, of one of the case's files, or of what a file must hold.
#[derive(Drop)]
enum Content {
    Nothing,
    Given(String),
    Wanted(String),
}

/// Takes the lines of cases, one after another, and keeps what differs from what they want.
#[derive(Drop)]
pub struct Bench {
    alloc: Global,
    host: MemoryHost,
    /// The files that the case gives.
    names: Vec<String>,
    /// The most bytes that are read at once, or 0 for any number.
    piece: usize,
    title: String,
    content: Content,
    bytes: Vec<u8>,
    /// How the last command ended, until a line says how it should.
    end: Option<String>,
    cases: u64,
    wrong: u64,
    is_wrong: bool,
    differences: Vec<String>,
}

impl Bench {
    pub fn new(alloc: Global) -> Bench {
        Bench {
            alloc,
            host: MemoryHost::new(alloc),
            names: Vec::new(alloc),
            piece: 0,
            title: String::new(alloc),
            content: Content::Nothing,
            bytes: Vec::new(alloc),
            end: None,
            cases: 0,
            wrong: 0,
            is_wrong: false,
            differences: Vec::new(alloc),
        }
    }

    pub fn cases(&self) -> u64 {
        self.cases
    }

    /// How many of the cases differ.
    pub fn wrong(&self) -> u64 {
        self.wrong
    }

    pub fn differences(&self) -> &[String] {
        self.differences.as_slice()
    }

    /// Takes one line. A line that is empty or begins with `#` says nothing.
    pub fn take(&mut self, line: &str) -> Result<(), Memory> {
        if add_content(self.alloc, line, &mut self.bytes)? {
            return Ok(());
        }
        self.end_content()?;
        if line.is_empty() || line.starts_with('#') {
            return Ok(());
        }
        let (word, rest) = first_word(line);
        if word == "case" {
            self.begin(rest)
        } else if word == "file" {
            self.content = Content::Given(String::from_str(self.alloc, rest)?);
            Ok(())
        } else if word == "holds" {
            self.content = Content::Wanted(String::from_str(self.alloc, rest)?);
            Ok(())
        } else if word == "do" {
            self.run(rest)
        } else if word == "strikes" {
            self.strike(rest)
        } else if word == "ends" {
            self.compare_end(rest)
        } else if word == "pieces" {
            self.set_pieces(rest);
            Ok(())
        } else if word == "failing" {
            self.host.fail_call(rest.parse::<u64>().unwrap_or(0))
        } else if word == "front" {
            self.add_front(rest)
        } else {
            self.look(word, rest)
        }
    }

    /// Ends the last case.
    pub fn finish(&mut self) -> Result<(), Memory> {
        self.end_content()?;
        self.end_command()
    }

    fn begin(&mut self, title: &str) -> Result<(), Memory> {
        self.end_command()?;
        self.host = MemoryHost::new(self.alloc);
        self.names = Vec::new(self.alloc);
        self.piece = 0;
        self.title = String::from_str(self.alloc, title)?;
        self.cases = self.cases.saturating_add(1);
        self.is_wrong = false;
        Ok(())
    }

    // The greatest count of bytes that are read at once.
    fn set_pieces(&mut self, text: &str) {
        let size = text.parse::<usize>().unwrap_or(0);
        if size > 0 {
            self.host.set_piece(size);
        }
        self.piece = size;
    }

    // A file, a count, and the file whose first bytes it has.
    fn add_front(&mut self, text: &str) -> Result<(), Memory> {
        let (name, rest) = first_word(text);
        let (count, whole) = first_word(rest);
        let count = count.parse::<usize>().unwrap_or(0);
        let mut front = Vec::new(self.alloc);
        if let Some(bytes) = self.host.file(whole) {
            front.extend_from_slice(&bytes[..count.min(bytes.len())])?;
        }
        self.host.add_file(name, front.as_slice())
    }

    fn differ(&mut self, what: &str) -> Result<(), Memory> {
        if !self.is_wrong {
            self.is_wrong = true;
            self.wrong = self.wrong.saturating_add(1);
        }
        let line = format!(in self.alloc; "{}: {what}", self.title)?;
        self.differences.push(line)?;
        Ok(())
    }

    fn end_content(&mut self) -> Result<(), Memory> {
        let bytes = mem::replace(&mut self.bytes, Vec::new(self.alloc));
        match mem::replace(&mut self.content, Content::Nothing) {
            Content::Nothing => Ok(()),
            Content::Given(name) => {
                self.host.add_file(name.as_str(), bytes.as_slice())?;
                self.names.push(name)?;
                Ok(())
            }
            Content::Wanted(name) => {
                if self.host.file(name.as_str()) == Some(bytes.as_slice()) {
                    Ok(())
                } else {
                    self.differ_by(name.as_str(), "doesn't hold what it should")
                }
            }
        }
    }

    fn differ_by(&mut self, name: &str, what: &str) -> Result<(), Memory> {
        let line = format!(in self.alloc; "{name} {what}")?;
        self.differ(line.as_str())
    }

    fn words(&self, line: &str) -> Result<Vec<String>, Memory> {
        let mut words = Vec::new(self.alloc);
        if !line.is_empty() {
            for word in line.split(' ') {
                words.push(String::from_str(self.alloc, word)?)?;
            }
        }
        Ok(words)
    }

    // The command with each call of the host failing in turn.
    fn strike(&mut self, line: &str) -> Result<(), Memory> {
        self.end_command()?;
        let words = self.words(line)?;
        let struck = Struck {
            words: words.as_slice(),
            files: &self.host,
            names: self.names.as_slice(),
            piece: self.piece,
        };
        match struck.difference(self.alloc)? {
            Some(what) => self.differ(what.as_str()),
            None => Ok(()),
        }
    }

    fn run(&mut self, line: &str) -> Result<(), Memory> {
        self.end_command()?;
        let words = self.words(line)?;
        let outcome = filter_tool(self.alloc, &words, &mut self.host);
        let end = end_of(self.alloc, &outcome)?;
        self.end = Some(end);
        Ok(())
    }

    fn compare_end(&mut self, wanted: &str) -> Result<(), Memory> {
        match self.end.take() {
            Some(end) => {
                if end.as_str() == wanted {
                    Ok(())
                } else {
                    let line = format!(in self.alloc; "ends {end} in place of {wanted}")?;
                    self.differ(line.as_str())
                }
            }
            None => self.differ("no command before its end"),
        }
    }

    fn end_command(&mut self) -> Result<(), Memory> {
        match self.end.take() {
            Some(_) => self.differ("no line says how the command ends"),
            None => Ok(()),
        }
    }

    // What a line says of a file.
    fn look(&mut self, word: &str, rest: &str) -> Result<(), Memory> {
        let (name, wanted) = first_word(rest);
        let file = self.host.file(name);
        let holds = match (word, file) {
            ("lacks", file) => file.is_none(),
            ("line", Some(file)) => has_line(file, wanted),
            ("lines", Some(file)) => has_lines(file, wanted),
            ("accepts", Some(file)) => is_accepted(self.alloc, file, wanted)?,
            ("reads", Some(file)) => match self.host.file(wanted) {
                Some(plan) => is_same_plan(self.alloc, file, plan)?,
                None => false,
            },
            _ => false,
        };
        if holds {
            Ok(())
        } else {
            let line = format!(in self.alloc; "isn't so: {word} {rest}")?;
            self.differ(line.as_str())
        }
    }
}
