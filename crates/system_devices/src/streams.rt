ghost use Rattle.std.specs.Prelude.{◌≡◌};

use pcg_base::{Failed, Sink, Source};
use std::io::{ErrorKind, Read, Write};

/// A file, or what else is read, as a source that counts its errors and tells no bytes.
#[derive(Drop)]
pub struct Incoming<R: Read + Drop> {
    from: R,
    faults: u64,
}

impl<R: Read + Drop> Incoming<R> {
    ghost use Rattle.system_devices.specs.Faults.{faults_in};

    /// A source that has not failed yet.
    pub fn new(from: R) -> Incoming<R>
        ensures { faults_in result ≡ 0 }
    {
        Incoming { from, faults: 0 }
    }

    /// How often it has failed.
    pub fn faults(&self) -> u64
        ensures { result ≡ faults_in self.now }
    {
        self.faults
    }
}

impl<R: Read + Drop> Source for Incoming<R> {
    ghost use Rattle.std.specs.Prelude.{None};
    ghost use Rattle.system_devices.specs.Faults.{faults_in};

    ghost left = { λ _. None };

    ghost faults = { λ s. faults_in s };

    /// Reads again where a signal broke in. Any other error is counted.
    fn read(&mut self, into: &mut [u8]) -> Result<usize, Failed> {
        for _ in 0..u64::MAX {
            match self.from.read(into) {
                Ok(count) => return Ok(count),
                Err(error) if error.kind() == ErrorKind::Interrupted => {}
                Err(_) => break,
            }
        }
        self.faults = self.faults.saturating_add(1);
        Err(Failed)
    }
}

/// A file, or what else is written, as a sink that counts its errors and tells no bytes.
#[derive(Drop)]
pub struct Outgoing<W: Write + Drop> {
    to: W,
    faults: u64,
}

impl<W: Write + Drop> Outgoing<W> {
    ghost use Rattle.system_devices.specs.Faults.{faults_out};

    /// A sink that has not failed yet.
    pub fn new(to: W) -> Outgoing<W>
        ensures { faults_out result ≡ 0 }
    {
        Outgoing { to, faults: 0 }
    }

    /// How often it has failed.
    pub fn faults(&self) -> u64
        ensures { result ≡ faults_out self.now }
    {
        self.faults
    }
}

impl<W: Write + Drop> Sink for Outgoing<W> {
    ghost use Rattle.system_devices.specs.Faults.{sink_state};

    ghost state = { λ k. sink_state k };

    /// Writes again where a signal broke in. Any other error is counted, and so is a write that
    /// takes nothing of a piece that has bytes.
    fn write(&mut self, piece: &[u8]) -> Result<usize, Failed> {
        for _ in 0..u64::MAX {
            match self.to.write(piece) {
                Ok(count) if count > 0 || piece.is_empty() => return Ok(count),
                Err(error) if error.kind() == ErrorKind::Interrupted => {}
                _ => break,
            }
        }
        self.faults = self.faults.saturating_add(1);
        Err(Failed)
    }

    fn flush(&mut self) -> Result<(), Failed> {
        if self.to.flush().is_err() {
            self.faults = self.faults.saturating_add(1);
            return Err(Failed);
        }
        Ok(())
    }
}
