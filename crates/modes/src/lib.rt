//! The mode of a file, as the system tells it: what kind of file it is, and its permissions; or errno's number.
#![tactic(auto)]

use std::fs::Metadata;
use std::io;
use std::os::unix::fs::MetadataExt;
use std::rt::Files;

fn mode_of(told: io::Result<Metadata>) -> Result<u32, i32> {
    match told {
        Ok(told) => Ok(told.mode()),
        Err(error) => Err(paths::errno(error.raw_os_error())),
    }
}

/// Of the name itself, a symbolic link not followed.
pub fn own_mode(rt: &HostRuntime, path: &[u8]) -> Result<u32, i32> {
    mode_of(rt.symlink_metadata(paths::text_of(path)?))
}

/// Of what the name leads to.
pub fn led_mode(rt: &HostRuntime, path: &[u8]) -> Result<u32, i32> {
    mode_of(rt.metadata(paths::text_of(path)?))
}
