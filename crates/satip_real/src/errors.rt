//! The errors of accept(2), by what follows from them.

use std::io;

// An error that the crate `libc` doesn't name (errno(3)).
const ENFILE: i32 = 23;

/// Returns whether an error of accept(2) is the listener's own, so that no later call gives a
/// connection. All others are of one connection, or of a shortage that may pass.
pub(crate) fn ends_listening(error: &io::Error) -> bool {
    matches!(
        error.raw_os_error(),
        Some(libc::EBADF | libc::EINVAL | libc::ENOTSOCK)
    )
}

/// Returns whether the process or the system has no further descriptor.
pub(crate) fn lacks_descriptors(error: &io::Error) -> bool {
    matches!(error.raw_os_error(), Some(libc::EMFILE | ENFILE))
}
