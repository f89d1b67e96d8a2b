ghost use Rattle.std.specs.Prelude.{◌≡◌, [], None};

use crate::event::Happening;
use crate::files::{FileFault, Files};
use crate::journal::Journal;
use std::alloc::Global;
use std::io::{ErrorKind, Read};

/// The longest file that is read, in bytes.
const LONGEST: u64 = 1_073_741_824;

/// The system's files. What they hold isn't told; each fault and each name that isn't found is counted, and what was
/// read and written is noted.
///
/// A name that isn't UTF-8 isn't found by `read` and is a failed `write`. A file longer than 1,073,741,824 bytes, and
/// a directory, is a failed read.
#[derive(Drop)]
pub struct RealFiles<'a, R: std::rt::Files> {
    rt: &'a R,
    faults: u64,
    misses: u64,
    heard: Journal,
    written: Journal,
}

impl<'a, R: std::rt::Files> RealFiles<'a, R> {
    pub fn new(rt: &'a R) -> RealFiles<'a, R>
        ensures faults { result.faults ≡ 0 }
        ensures misses { result.misses ≡ 0 }
        ensures heard { result.heard ≡ [] }
        ensures written { result.written ≡ [] }
    {
        RealFiles {
            rt,
            faults: 0,
            misses: 0,
            heard: Journal::new(),
            written: Journal::new(),
        }
    }
}

impl<'a, R: std::rt::Files> Files for RealFiles<'a, R> {
    ghost state = { λ s. record {
      held = None;
      faults = s.faults;
      misses = s.misses;
      heard = s.heard;
      written = s.written;
    } };

    fn read(&mut self, alloc: Global, name: &[u8]) -> Result<Vec<u8>, FileFault> {
        match read_named(self.rt, alloc, name) {
            Ok(bytes) => {
                self.heard.note(Happening::Gave(name, bytes.as_slice()));
                Ok(bytes)
            }
            Err(FileFault::Absent) => {
                self.heard.note(Happening::Lacked(name));
                self.misses = self.misses.saturating_add(1);
                Err(FileFault::Absent)
            }
            Err(FileFault::Failed) => {
                self.heard.note(Happening::Failed(name));
                self.faults = self.faults.saturating_add(1);
                Err(FileFault::Failed)
            }
            Err(FileFault::Memory) => Err(FileFault::Memory),
        }
    }

    fn write(&mut self, _alloc: Global, name: &[u8], bytes: &[u8]) -> Result<(), FileFault> {
        if write_named(self.rt, name, bytes) {
            self.written.note(Happening::Wrote(name, bytes));
            Ok(())
        } else {
            self.faults = self.faults.saturating_add(1);
            Err(FileFault::Failed)
        }
    }
}

fn read_named<R: std::rt::Files>(rt: &R, alloc: Global, name: &[u8]) -> Result<Vec<u8>, FileFault> {
    let Ok(path) = str::from_utf8(name) else {
        return Err(FileFault::Absent);
    };
    let file = match std::fs::open(rt, path) {
        Ok(file) => file,
        Err(fault) => return Err(fault_of(fault.kind())),
    };
    let mut bytes = Vec::new(alloc);
    match file.take(LONGEST + 1).read_to_end(&mut bytes) {
        Ok(_) if bytes.len() as u64 <= LONGEST => Ok(bytes),
        Ok(_) => Err(FileFault::Failed),
        Err(fault) if fault.kind() == ErrorKind::OutOfMemory => Err(FileFault::Memory),
        Err(_) => Err(FileFault::Failed),
    }
}

fn fault_of(kind: ErrorKind) -> FileFault {
    match kind {
        ErrorKind::NotFound => FileFault::Absent,
        ErrorKind::OutOfMemory => FileFault::Memory,
        _ => FileFault::Failed,
    }
}

/// Whether the file could be written whole.
fn write_named<R: std::rt::Files>(rt: &R, name: &[u8], bytes: &[u8]) -> bool {
    match str::from_utf8(name) {
        Ok(path) => std::fs::write(rt, path, bytes).is_ok(),
        Err(_) => false,
    }
}
