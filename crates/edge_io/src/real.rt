//! The trusted edge: ends over std's readers, writers and files. They tell nothing of what they
//! hold.
//!
//! A call that a signal interrupts is tried again, and is no failed call.
ghost use Rattle.std.specs.Prelude.{◌≡◌, ◌<◌, ◌≤◌, ◌≢◌, None, length, IfOk, IsErrOf};
ghost use Rattle.edge_io.specs.File.{untold};

use crate::faults::{Failed, Memory, PutFault, TakeFault};
use crate::octet_list::Octets;
use crate::shelves::Shelf;
use crate::sinks::Sink;
use crate::sources::Source;
use std::alloc::Global;
use std::fs::File;
use std::io::{BufReader, ErrorKind, Read, Write};
use std::rt::Files;

/// How many octets a source reads ahead, and a shelf reads at a time.
const PIECE: usize = 65536;

/// A source over a reader, as standard input. It reads ahead in pieces of 65,536 octets.
#[derive(Drop)]
pub struct StdSource<R> {
    reader: BufReader<R>,
    faults: u64,
}

impl<R: Read + Drop> StdSource<R> {
    /// A source that gives what `reader` reads.
    ///
    /// # Errors
    ///
    /// `Memory` where there was no memory for what is read ahead.
    pub fn new(alloc: Global, reader: R) -> Result<StdSource<R>, Memory> {
        match BufReader::with_capacity(alloc, PIECE, reader) {
            Ok(reader) => Ok(StdSource { reader, faults: 0 }),
            Err(_) => Err(Memory),
        }
    }
}

impl<R: Read> Source for StdSource<R> {
    ghost rest = { λ _. None };

    ghost faults = { λ s. s.faults };

    fn read(&mut self, buf: &mut [u8]) -> Result<usize, Failed> {
        let read = read_once(&mut self.reader, buf);
        if read.is_err() {
            self.faults = self.faults.saturating_add(1);
        }
        read
    }
}

/// A sink over a writer, as standard output. It keeps nothing back: what a write took was handed on
/// before it answers.
#[derive(Drop)]
pub struct StdSink<W> {
    writer: W,
    faults: u64,
}

impl<W: Write> StdSink<W> {
    /// A sink that gives what it takes to `writer`.
    pub fn new(writer: W) -> StdSink<W> {
        StdSink { writer, faults: 0 }
    }
}

impl<W: Write> Sink for StdSink<W> {
    ghost held = { λ _. None };

    ghost faults = { λ s. s.faults };

    ghost lacks = { λ _. 0 };

    fn write(&mut self, _alloc: Global, piece: &[u8]) -> Result<usize, PutFault> {
        if piece.is_empty() {
            return Ok(0);
        }
        match write_once(&mut self.writer, piece) {
            Ok(n) => Ok(n),
            Err(Failed) => {
                self.faults = self.faults.saturating_add(1);
                Err(PutFault::Failed)
            }
        }
    }
}

/// The files of the system, by their paths.
#[derive(Drop)]
pub struct FileShelf<'a, R> {
    files: &'a R,
    faults: u64,
}

impl<'a, R: Files> FileShelf<'a, R> {
    /// A shelf that opens its names as paths through `files`.
    pub fn new(files: &'a R) -> FileShelf<'a, R> {
        FileShelf { files, faults: 0 }
    }
}

impl<R: Files> Shelf for FileShelf<'_, R> {
    ghost file = { λ _ _. untold };

    ghost faults = { λ s. s.faults };

    ghost calm = { λ _. ⊥ };

    fn take(&mut self, alloc: Global, name: &str, at_most: usize) -> Result<Octets, TakeFault> {
        let taken = read_file(alloc, self.files, name, at_most);
        if let Err(TakeFault::Failed) = taken {
            self.faults = self.faults.saturating_add(1);
        }
        taken
    }
}

/// One read, tried again where a signal interrupts it.
fn read_once<R: Read>(reader: &mut R, buf: &mut [u8]) -> Result<usize, Failed>
    ensures { IfOk result (λ n. n ≤ length buf.old) }
{
    for _ in 0..u64::MAX {
        match reader.read(buf) {
            Ok(n) => return Ok(n),
            Err(e) if e.kind() == ErrorKind::Interrupted => {}
            Err(_) => return Err(Failed),
        }
    }
    Err(Failed)
}

/// One write that takes something and keeps nothing back, tried again where a signal interrupts it.
fn write_once<W: Write>(writer: &mut W, piece: &[u8]) -> Result<usize, Failed>
    ensures { IfOk result (λ n. (0 < n) × (n ≤ length piece.now)) }
{
    for _ in 0..u64::MAX {
        match writer.write(piece) {
            Ok(0) => return Err(Failed),
            Ok(n) => {
                flush_once(writer)?;
                return Ok(n);
            }
            Err(e) if e.kind() == ErrorKind::Interrupted => {}
            Err(_) => return Err(Failed),
        }
    }
    Err(Failed)
}

/// A flush, tried again where a signal interrupts it.
fn flush_once<W: Write>(writer: &mut W) -> Result<(), Failed> {
    for _ in 0..u64::MAX {
        match writer.flush() {
            Ok(()) => return Ok(()),
            Err(e) if e.kind() == ErrorKind::Interrupted => {}
            Err(_) => return Err(Failed),
        }
    }
    Err(Failed)
}

/// Opens the file and reads it to its end.
fn read_file<R: Files>(
    alloc: Global,
    files: &R,
    name: &str,
    at_most: usize,
) -> Result<Octets, TakeFault>
    ensures { IfOk result (λ octets. length octets ≤ at_most) }
{
    match File::open(files, name) {
        Ok(mut file) => read_to_end(alloc, &mut file, at_most),
        Err(_) => Err(TakeFault::Failed),
    }
}

/// Reads to the end, but no more than one piece past `at_most`.
fn read_to_end<R: Read>(alloc: Global, reader: &mut R, at_most: usize) -> Result<Octets, TakeFault>
    ensures { IfOk result (λ octets. length octets ≤ at_most) }
{
    let mut octets = Vec::new(alloc);
    let mut piece = [0; PIECE];
    for _ in 0..u64::MAX {
        match read_once(reader, &mut piece) {
            Ok(0) => return Ok(Octets::of(octets)),
            Ok(n) if n > at_most - octets.len() => return Err(TakeFault::TooLong),
            Ok(n) => octets.extend_from_slice(&piece[..n])?,
            Err(Failed) => return Err(TakeFault::Failed),
        }
    }
    Err(TakeFault::Failed)
}

#[cfg(test)]
mod tests {
    use super::*;
    use crate::sinks::write_all;
    use crate::sources::read_full;
    use std::fs::OpenOptions;
    use std::io;
    use std::process::Abort;
    use std::test::Fail;

    /// A reader and writer whose first call is interrupted and whose second one gives or takes one
    /// octet; every later one fails.
    #[derive(Drop)]
    struct Shaky(u8);

    impl Shaky {
        fn step(&mut self, room: usize) -> io::Result<usize>
            ensures { IfOk result (λ n. n ≤ room) }
        {
            self.0 = self.0.saturating_add(1);
            match self.0 {
                1 => Err(io::Error::from(ErrorKind::Interrupted)),
                2 => Ok(room.min(1)),
                _ => Err(io::Error::from(ErrorKind::BrokenPipe)),
            }
        }
    }

    impl Read for Shaky {
        fn read(&mut self, buf: &mut [u8]) -> io::Result<usize> {
            self.step(buf.len())
        }
    }

    impl Write for Shaky {
        fn write(&mut self, buf: &[u8]) -> io::Result<usize> {
            self.step(buf.len())
        }

        fn flush(&mut self) -> io::Result<()> {
            Ok(())
        }
    }

    fn sources(rt: &(impl Files + Abort), alloc: Global) -> Result<(), Fail> {
        let mut buf = [7; 3];
        let mut source = StdSource::new(alloc, File::open(rt, "/dev/zero")?).map_err(|_| "memory")?;
        assert_eq!(rt; read_full(&mut source, &mut buf), Ok(3));
        assert_eq!(rt; buf, [0; 3]);
        let mut source = StdSource::new(alloc, File::open(rt, "/")?).map_err(|_| "memory")?;
        assert_eq!(rt; source.read(&mut buf), Err(Failed), "a directory");
        Ok(())
    }

    fn interrupted_source(rt: &impl Abort, alloc: Global) -> Result<(), Fail> {
        let mut buf = [7; 3];
        let mut source = StdSource::new(alloc, Shaky(0)).map_err(|_| "memory")?;
        assert_eq!(rt; source.read(&mut buf), Ok(1), "tried again");
        assert_eq!(rt; source.faults, 0);
        assert_eq!(rt; source.read(&mut buf), Err(Failed));
        assert_eq!(rt; source.faults, 1);
        Ok(())
    }

    fn interrupted_sink(rt: &impl Abort, alloc: Global) {
        let mut sink = StdSink::new(Shaky(0));
        assert_eq!(rt; sink.write(alloc, b""), Ok(0));
        assert_eq!(rt; sink.write(alloc, b"abc"), Ok(1), "tried again");
        assert_eq!(rt; sink.faults, 0);
        assert_eq!(rt; sink.write(alloc, b"bc"), Err(PutFault::Failed));
        assert_eq!(rt; sink.faults, 1);
    }

    fn full_disk(rt: &(impl Files + Abort), alloc: Global) -> Result<(), Fail> {
        let mut sink = StdSink::new(OpenOptions::new().write(true).open(rt, "/dev/full")?);
        assert_eq!(rt; write_all(alloc, &mut sink, b"abc"), Err(PutFault::Failed));
        Ok(())
    }

    fn shelf(rt: &(impl Files + Abort), alloc: Global) {
        let mut shelf = FileShelf::new(rt);
        for (name, want) in [
            ("/dev/null", None),
            ("/dev/zero", Some(TakeFault::TooLong)),
            ("/no/such/file", Some(TakeFault::Failed)),
            ("/", Some(TakeFault::Failed)),
        ] {
            assert_eq!(rt; shelf.take(alloc, name, 100000).err(), want, "{name}");
        }
        assert_eq!(rt; shelf.faults, 2);
    }

    #[test]
    fn real_ends(rt: HostRuntime) -> Result<(), Fail> {
        let alloc = rt.alloc();
        interrupted_source(&rt, alloc)?;
        sources(&rt, alloc)?;
        interrupted_sink(&rt, alloc);
        full_disk(&rt, alloc)?;
        shelf(&rt, alloc);
        Ok(())
    }
}
