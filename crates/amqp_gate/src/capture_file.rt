//! The file of a capture.

use gate_edge::tell;
use std::fs::{File, OpenOptions};
use std::io;
use std::io::{ErrorKind, Write};
use std::os::unix::fs::OpenOptionsExt;

/// The mode of a file that is made: its owner's alone, since logins stand in it.
const MODE: u32 = 0o600;

/// The file that a capture is written to, each entry as it comes. Where none could be made, each
/// write to it fails.
#[derive(Drop)]
pub struct CaptureFile<'a> {
    rt: &'a HostRuntime,
    file: Option<File>,
}

impl<'a> CaptureFile<'a> {
    /// Makes the file, or empties the one that is there; without a path there is none. The standard
    /// error is told why it can't be made.
    pub fn create(rt: &'a HostRuntime, path: Option<&str>) -> CaptureFile<'a> {
        let file = path.and_then(|path| match make(rt, path) {
            Ok(file) => Some(file),
            Err(error) => {
                tell_unmade(rt, path, &error);
                None
            }
        });
        CaptureFile { rt, file }
    }
}

/// Makes a file, or empties the one that is there, which keeps its mode.
fn make(rt: &HostRuntime, path: &str) -> io::Result<File> {
    let mut options = OpenOptions::new();
    options.write(true).create(true).truncate(true).mode(MODE);
    options.open(rt, path)
}

/// Tells why a file can't be made.
fn tell_unmade(rt: &HostRuntime, path: &str, error: &io::Error) {
    if let Ok(line) = format!(in rt.alloc(); "cannot write {path}: {error}") {
        tell(rt, line.as_str());
    }
}

/// Tells why one that was made can't be written. The service ends with that, so it is told once.
fn tell_unwritten(rt: &HostRuntime, error: &io::Error) {
    if let Ok(line) = format!(in rt.alloc(); "the capture failed: {error}") {
        tell(rt, line.as_str());
    }
}

impl Write for CaptureFile<'_> {
    fn write(&mut self, buf: &[u8]) -> io::Result<usize> {
        let Some(file) = &mut self.file else {
            return Err(ErrorKind::NotFound.into());
        };
        let written = file.write(buf);
        if let Err(error) = &written {
            if error.kind() != ErrorKind::Interrupted {
                tell_unwritten(self.rt, error);
            }
        }
        written
    }

    fn flush(&mut self) -> io::Result<()> {
        Ok(())
    }
}
