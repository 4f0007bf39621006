//! Thin adapters over the streams, files and words of the system. Those over streams pass bytes on: what a reader has left is what its
//! source has left, and what a writer took is what its sink has written. Of the bytes of files by their paths nothing is known.
ghost use Rattle.std.specs.Prelude.{◌≡◌};

use crate::traits::{Failed, Files, Sink, Source, failure};
use std::fs::File;
use std::io::{Read, Seek, SeekFrom, Write};
use std::{env, io, rt};

/// A device of the system with a count of its faults.
#[derive(Drop)]
pub struct Device<D> {
    device: D,
    faults: u64,
}

/// A source over a reader, as standard input.
pub type StdSource<R> = Device<R>;

/// A sink over an unbuffered writer, as standard output. A writer that takes none of a piece that is not empty has failed.
pub type StdSink<W> = Device<W>;

/// The files of a runtime by their paths, with one count for all names.
pub type HostFiles<'a, R> = Device<&'a R>;

/// A writer that holds nothing back: the bytes that a call of `write` took have left the program when it answers.
pub trait Unbuffered {}

impl Unbuffered for io::Stdout {}

impl Unbuffered for io::Stderr {}

impl<D> Device<D> {
    /// A device that has not failed.
    pub fn new(device: D) -> Device<D>
        ensures device { result.device ≡ device }
        ensures faults { result.faults ≡ 0 }
    {
        Device { device, faults: 0 }
    }
}

impl<R: Read> Source for Device<R> {
    ghost left = { λ s. R.remaining s.device };

    ghost faults = { λ s. s.faults };

    fn read(&mut self, buf: &mut [u8]) -> Result<usize, Failed> {
        if let Ok(n) = self.device.read(buf) {
            return Ok(n);
        }
        Err(failure(&mut self.faults))
    }
}

impl<W: Write + Unbuffered> Sink for Device<W> {
    ghost written = { λ s. W.contents s.device };

    ghost faults = { λ s. s.faults };

    fn write(&mut self, piece: &[u8]) -> Result<usize, Failed> {
        if let Ok(n) = self.device.write(piece) {
            if n > 0 || piece.is_empty() {
                return Ok(n);
            }
        }
        Err(failure(&mut self.faults))
    }
}

impl<R: rt::Files> Files for Device<&R> {
    ghost use Rattle.std.specs.Prelude.{None};

    ghost contents = { λ _ _. None };

    ghost faults = { λ s _. s.faults };

    fn fetch(&mut self, name: &str, from: u64, buf: &mut [u8]) -> Result<usize, Failed> {
        if let Ok(mut file) = File::open(self.device, name) {
            if let Ok(_) = file.seek(SeekFrom::Start(from)) {
                if let Ok(n) = file.read(buf) {
                    return Ok(n);
                }
            }
        }
        Err(failure(&mut self.faults))
    }
}

/// The words behind the program's name. Where one is no UTF-8 there are none, which is as faulty for a program that asks for some; where
/// they can't be had memory was wanting.
pub fn host_words(rt: &HostRuntime) -> io::Result<Vec<String>> {
    match env::args(rt) {
        Ok(args) => Ok(args.skip(1).collect(rt.alloc())?),
        Err(fault) if fault.kind() == io::ErrorKind::InvalidData => Ok(Vec::new(rt.alloc())),
        Err(fault) => Err(fault),
    }
}
