//! Keys from the system's source of random bytes.

use satip_base::Failed;
use std::fs;
use std::io::Read;
use std::rt::Files;

const SOURCE: &str = "/dev/urandom";

/// Reads a key of 32 bytes from the system's source of random bytes. Returns `Failed` if the source
/// can't be read.
pub fn read_key(rt: &HostRuntime) -> Result<[u8; 32], Failed> {
    let mut key = [0u8; 32];
    match fs::open(rt, SOURCE) {
        Ok(mut source) => match source.read_exact(&mut key) {
            Ok(()) => Ok(key),
            Err(_) => Err(Failed),
        },
        Err(_) => Err(Failed),
    }
}
