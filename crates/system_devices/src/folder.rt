ghost use Rattle.std.specs.Prelude.{◌≡◌, ℕ, List};
ghost use Rattle.system_devices.specs.Folders.{read_faults_of, write_faults_of, seen_in};
ghost use Rattle.system_devices.specs.Seen.{unseen};

use crate::seen::{Names, look, make_room, put};
use crate::streams::{Incoming, Outgoing};
use pcg_base::{Place, PlaceError};
use std::alloc::Global;
use std::collections::BTreeMap;
use std::fs;
use std::fs::File;
use std::rt::Files;

/// The folder that the program runs in, as a place. Names are paths, and no bytes are told.
#[derive(Drop)]
pub struct Folder<'a, R: Files<File = File>> {
    rt: &'a R,
    alloc: Global,
    names: Names,
    read_faults: u64,
    write_faults: u64,
}

impl<'a, R: Files<File = File>> Folder<'a, R> {
    /// The folder, of which nothing was opened yet.
    pub fn new(rt: &'a R, alloc: Global) -> Folder<'a, R>
        ensures unseen { (n : List ℕ) → seen_in result n ≡ unseen }
        ensures read_faults { read_faults_of result ≡ 0 }
        ensures write_faults { write_faults_of result ≡ 0 }
    {
        Folder {
            rt,
            alloc,
            names: BTreeMap::new(alloc),
            read_faults: 0,
            write_faults: 0,
        }
    }
}

impl<'a, R: Files<File = File>> Place for Folder<'a, R> {
    ghost use Rattle.system_devices.specs.Folders.{state_of};

    type In = Incoming<File>;

    type Out = Outgoing<File>;

    ghost state = { λ p. state_of p };

    /// Opens a file that is there. An error is counted, for the folder and for the name.
    fn source_of(&mut self, name: &str) -> Result<Incoming<File>, PlaceError> {
        if make_room(self.alloc, &mut self.names, name).is_err() {
            return Err(PlaceError::NoMemory);
        }
        let mut seen = look(&self.names, name);
        let Ok(file) = fs::open(self.rt, name) else {
            self.read_faults = self.read_faults.saturating_add(1);
            seen.source_openings = seen.source_openings.saturating_add(1);
            put(&mut self.names, name, seen);
            return Err(PlaceError::Failed);
        };
        seen.opened_in = true;
        put(&mut self.names, name, seen);
        Ok(Incoming::new(file))
    }

    /// Makes a file, or empties it. An error is counted, for the folder and for the name.
    fn sink_of(&mut self, name: &str) -> Result<Outgoing<File>, PlaceError> {
        if make_room(self.alloc, &mut self.names, name).is_err() {
            return Err(PlaceError::NoMemory);
        }
        let mut seen = look(&self.names, name);
        let Ok(file) = fs::create(self.rt, name) else {
            self.write_faults = self.write_faults.saturating_add(1);
            seen.sink_openings = seen.sink_openings.saturating_add(1);
            put(&mut self.names, name, seen);
            return Err(PlaceError::Failed);
        };
        seen.opened_out = true;
        put(&mut self.names, name, seen);
        Ok(Outgoing::new(file))
    }

    /// Closes a file that was read.
    fn keep_in(&mut self, name: &str, source: Incoming<File>) {
        let faults = source.faults();
        self.read_faults = self.read_faults.saturating_add(faults);
        let mut seen = look(&self.names, name);
        seen.source_faults = seen.source_faults.saturating_add(faults);
        put(&mut self.names, name, seen);
    }

    /// Closes a file that was written.
    fn keep_out(&mut self, name: &str, sink: Outgoing<File>) {
        let faults = sink.faults();
        self.write_faults = self.write_faults.saturating_add(faults);
        let mut seen = look(&self.names, name);
        seen.sink_faults = seen.sink_faults.saturating_add(faults);
        put(&mut self.names, name, seen);
    }
}
