//! The lock of a journal: a file beside it, which one program makes and removes.

use crate::trouble::Trouble;
use std::fs::{self, File};
use std::io::ErrorKind;

/// A lock that this program has.
#[derive(Drop)]
pub struct Lock {
    name: String,
}

impl Lock {
    /// Takes the lock of a journal, unless it is there.
    pub fn take(rt: &HostRuntime, journal: &str) -> Result<Lock, Trouble> {
        let name = format!(in rt.alloc(); "{journal}.lock").map_err(Trouble::from)?;
        match File::create_new(rt, name.as_str()) {
            Ok(_file) => Ok(Lock { name }),
            Err(e) if e.kind() == ErrorKind::AlreadyExists => Err(Trouble::Locked),
            Err(e) => Err(Trouble::System(e)),
        }
    }

    /// Gives the lock back.
    pub fn release(self, rt: &HostRuntime) -> Result<(), Trouble> {
        fs::remove_file(rt, self.name.as_str())?;
        Ok(())
    }
}
