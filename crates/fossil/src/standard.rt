//! The descriptors 0 to 2, of the standard streams.

use fo_top::Why;
use std::fs::OpenOptions;
use std::io;
use std::os::fd::{AsFd, IntoRawFd};

/// The number of the error that a call on a closed descriptor gives (EBADF, errno(3)).
const BAD_DESCRIPTOR: i32 = 9;

/// Opens the null device at each of the descriptors 0 to 2 that is closed, so that no device's file gets such a number and with it
/// what is printed. It is opened the wrong way round, 0 for writing, 1 and 2 for reading, so that a read or a write of such a
/// stream fails as on a closed one.
///
/// An open call gives the lowest number that is free: the one that is looked at, as all below it are open by then.
pub fn hold_standard(rt: &HostRuntime) -> Result<(), Why> {
    if is_closed(&rt.stdin()) && hold(rt, false).is_err() {
        return Err(Why::Input);
    }
    if is_closed(&rt.stdout()) && hold(rt, true).is_err() {
        return Err(Why::Output);
    }
    if is_closed(&rt.stderr()) && hold(rt, true).is_err() {
        return Err(Why::Output);
    }
    Ok(())
}

/// Whether this stream's descriptor is closed.
fn is_closed(stream: &impl AsFd) -> bool {
    match stream.as_fd().try_clone_to_owned() {
        Ok(_) => false,
        Err(e) => e.raw_os_error() == Some(BAD_DESCRIPTOR),
    }
}

/// Opens the null device, for reading or else for writing, until the program ends.
fn hold(rt: &HostRuntime, read: bool) -> io::Result<()> {
    let mut how = OpenOptions::new();
    how.read(read);
    how.write(!read);
    let _ = how.open(rt, "/dev/null")?.into_raw_fd();
    Ok(())
}
