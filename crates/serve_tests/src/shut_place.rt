//! A place that opens nothing for writing. It tells no bytes, and its counts stand at their end.

ghost use Rattle.std.specs.Prelude.{[], None, ◌^◌, ◌-◌, true};

use crate::samples::{EDGES, ROOTS, SUPERVOXELS};
use memory_devices::{MemSink, MemSource};
use pcg_base::{Place, PlaceError};
use std::alloc::Global;

/// The usual tables and requests.
#[derive(Drop)]
pub struct ShutPlace {
    pub alloc: Global,
}

impl Place for ShutPlace {
    type In = MemSource;

    type Out = MemSink;

    ghost state = { λ self. record {
      files = None;
      left = λ name. [];
      reads = 2 ^ 64 - 1;
      writes = 2 ^ 64 - 1;
      counts = λ name. record { source_openings = 2 ^ 64 - 1; sink_openings = 2 ^ 64 - 1; source_faults = 2 ^ 64 - 1; sink_faults = 2 ^ 64 - 1 };
      opened_in = λ name. true;
      opened_out = λ name. true;
    } };

    fn source_of(&mut self, name: &str) -> Result<MemSource, PlaceError> {
        let bytes = match name {
            "supervoxels.csv" => SUPERVOXELS,
            "edges.csv" => EDGES,
            _ => ROOTS,
        };
        let Ok(bytes) = Vec::from_slice(self.alloc, bytes) else {
            return Err(PlaceError::NoMemory);
        };
        Ok(MemSource::new(bytes, 65536, Vec::new(self.alloc)))
    }

    fn sink_of(&mut self, name: &str) -> Result<MemSink, PlaceError> {
        let _ = name;
        Err(PlaceError::Failed)
    }

    fn keep_in(&mut self, name: &str, source: MemSource) {
        let _ = name;
        drop(source);
    }

    fn keep_out(&mut self, name: &str, sink: MemSink) {
        let _ = name;
        drop(sink);
    }
}
