//! Standard output. What it takes is not told.
ghost use Rattle.std.specs.Prelude.{◌≡◌, None};
ghost use Rattle.disk_files.specs.Edge.{out_faults};

use outside::{Failed, Sink};
use std::io::{Stdout, Write};

/// Standard output. It tells nothing of what was written, and writes nothing to standard error.
#[derive(Drop)]
pub struct OutSink {
    out: Stdout,
    faults: u64,
}

impl OutSink {
    /// Standard output of this runtime. No write has failed yet.
    pub fn new(rt: &HostRuntime) -> OutSink
        ensures { out_faults result ≡ 0 }
    {
        OutSink {
            out: rt.stdout(),
            faults: 0,
        }
    }
}

impl Sink for OutSink {
    ghost written = { λ _. None };

    ghost faults = { out_faults };

    fn put(&mut self, piece: &[u8]) -> Result<usize, Failed> {
        let result = self.out.write(piece);
        if result.is_err() || (matches!(result, Ok(0)) && !piece.is_empty()) {
            self.faults = self.faults.saturating_add(1);
        }
        result.map_err(|_| Failed)
    }
}
