// The files that are open, with their names.
ghost use Rattle.std.specs.Prelude.{◌≤◌, ◌<◌, length, IfOk};

use crate::STANDARD_OUTPUT;
use std::alloc::Global;
use std::io::{ErrorKind, Read, Seek, SeekFrom, Write};
use std::path::Path;
use std::rt::Files;
use std::{fs, io};

// Nothing can be written to it where it is opened to be read.
const NULL_DEVICE: &str = "/dev/null";

#[derive(Drop)]
pub struct Handles<R: Files + Print + Drop> {
    alloc: Global,
    rt: R,
    stand_ins: StandIns<R::File>,
    reading: Option<Reading<R::File>>,
    writing: Option<Writing<R::File>>,
}

// A file that is opened takes the lowest descriptor that is free. Where the program began with standard
// input, output or error closed, these three take their places, so that no file of the shelf does, and
// what is written to standard output or error fails.
#[derive(Drop)]
struct StandIns<F: Drop> {
    first: Option<F>,
    second: Option<F>,
    third: Option<F>,
}

#[derive(Drop)]
struct Reading<F: Drop> {
    name: String,
    file: F,
    // where the next read of the file begins
    position: u64,
}

#[derive(Drop)]
struct Writing<F: Drop> {
    name: String,
    file: F,
}

impl<R: Files + Print + Drop> Handles<R> {
    /// Opens the null device three times, and goes without where it cannot be opened.
    pub fn new(alloc: Global, rt: R) -> Self {
        let stand_ins = StandIns {
            first: fs::open(&rt, NULL_DEVICE).ok(),
            second: fs::open(&rt, NULL_DEVICE).ok(),
            third: fs::open(&rt, NULL_DEVICE).ok(),
        };
        Handles {
            alloc,
            rt,
            stand_ins,
            reading: None,
            writing: None,
        }
    }

    /// A failed read closes the file, and so does the end of the file: the next one opens it again.
    pub fn read_at(&mut self, name: &str, at: u64, buf: &mut [u8]) -> io::Result<usize>
        ensures { IfOk result (λ n. n ≤ length buf.new) }
    {
        let mut reading = match self.reading.take() {
            Some(reading) if reading.name.as_str() == name => reading,
            _ => self.open(name)?,
        };
        let n = reading.read_at(at, buf)?;
        if n != 0 {
            self.reading = Some(reading);
        }
        Ok(n)
    }

    pub fn create(&mut self, name: &str) -> io::Result<()> {
        if name == STANDARD_OUTPUT {
            return Ok(());
        }
        self.writing = None;
        let copy = String::from_str(self.alloc, name)?;
        let file = create_with_folders(&self.rt, name)?;
        self.writing = Some(Writing { name: copy, file });
        Ok(())
    }

    /// A failed write closes the file.
    pub fn write(&mut self, name: &str, bytes: &[u8]) -> io::Result<usize>
        ensures within { IfOk result (λ n. n ≤ length bytes.now) }
        ensures some { IfOk result (λ n. 0 < length bytes.now → 0 < n) }
    {
        if name == STANDARD_OUTPUT {
            return print_some(&self.rt, bytes);
        }
        let mut writing = match self.writing.take() {
            Some(writing) if writing.name.as_str() == name => writing,
            _ => self.open_at_end(name)?,
        };
        let n = write_some(&mut writing.file, bytes)?;
        self.writing = Some(writing);
        Ok(n)
    }

    fn open(&self, name: &str) -> io::Result<Reading<R::File>> {
        if name == STANDARD_OUTPUT {
            return Err(io::Error::from(ErrorKind::Unsupported));
        }
        Ok(Reading {
            name: String::from_str(self.alloc, name)?,
            file: fs::open(&self.rt, name)?,
            position: 0,
        })
    }

    fn open_at_end(&self, name: &str) -> io::Result<Writing<R::File>> {
        Ok(Writing {
            name: String::from_str(self.alloc, name)?,
            file: fs::OpenOptions::new().append(true).open(&self.rt, name)?,
        })
    }
}

impl<F: Read + Seek + Drop> Reading<F> {
    fn read_at(&mut self, at: u64, buf: &mut [u8]) -> io::Result<usize>
        ensures { IfOk result (λ n. n ≤ length buf.new) }
    {
        if at != self.position {
            self.file.seek(SeekFrom::Start(at))?;
        }
        let n = read_some(&mut self.file, buf)?;
        self.position = at.saturating_add(n as u64);
        Ok(n)
    }
}

// Creates a file and, where they are missing, the folders above it.
fn create_with_folders<R: Files>(rt: &R, name: &str) -> io::Result<R::File> {
    match fs::create(rt, name) {
        Err(e) if e.kind() == ErrorKind::NotFound => {}
        created => return created,
    }
    if let Some(folder) = Path::new(name).parent() {
        fs::create_dir_all(rt, folder)?;
    }
    fs::create(rt, name)
}

// Each of these tries again where a signal interrupts it.
fn read_some(file: &mut impl Read, buf: &mut [u8]) -> io::Result<usize>
    ensures { IfOk result (λ n. n ≤ length buf.new) }
{
    for _ in 0..u64::MAX {
        match file.read(buf) {
            Err(e) if e.kind() == ErrorKind::Interrupted => {}
            answer => return answer,
        }
    }
    Err(io::Error::from(ErrorKind::Interrupted))
}

fn write_some(file: &mut impl Write, bytes: &[u8]) -> io::Result<usize>
    ensures within { IfOk result (λ n. n ≤ length bytes.now) }
    ensures some { IfOk result (λ n. 0 < length bytes.now → 0 < n) }
{
    for _ in 0..u64::MAX {
        match file.write(bytes) {
            Ok(0) if !bytes.is_empty() => return Err(io::Error::from(ErrorKind::WriteZero)),
            Err(e) if e.kind() == ErrorKind::Interrupted => {}
            answer => return answer,
        }
    }
    Err(io::Error::from(ErrorKind::Interrupted))
}

fn print_some(rt: &impl Print, bytes: &[u8]) -> io::Result<usize>
    ensures within { IfOk result (λ n. n ≤ length bytes.now) }
    ensures some { IfOk result (λ n. 0 < length bytes.now → 0 < n) }
{
    for _ in 0..u64::MAX {
        match rt.write_some(bytes) {
            Ok(0) if !bytes.is_empty() => return Err(io::Error::from(ErrorKind::WriteZero)),
            Err(e) if e.kind() == ErrorKind::Interrupted => {}
            answer => return answer,
        }
    }
    Err(io::Error::from(ErrorKind::Interrupted))
}
