// Files that a test makes and takes away.
use kq_value::Memory;
use std::{fs, process};

// A name that no other test of this time has.
pub(super) fn name_of(rt: HostRuntime, ending: &str) -> Result<String, Memory> {
    let id = process::id(rt.process());
    format!(in rt.alloc(); "/tmp/kq_world_{id}.{ending}")
}

// Whether the file had these bytes. After that there is no such file.
pub(super) fn had(rt: HostRuntime, name: &str, bytes: &[u8]) -> bool {
    let same = match fs::read(&rt, name) {
        Ok(read) => read.as_slice() == bytes,
        Err(_) => false,
    };
    fs::remove_file(&rt, name).is_ok() && same
}
