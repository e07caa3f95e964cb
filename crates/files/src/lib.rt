// Files by their names.
#![tactic(auto)]

use std::fs::File;
use std::rt::Files;

// The file of this name, open for reading until it is dropped; none where it cannot be opened, as where its name is not
// UTF-8.
pub fn open_read(rt: &impl Files<File = File>, name: &[u8]) -> Option<File> {
    match str::from_utf8(name) {
        Ok(path) => File::open(rt, path).ok(),
        Err(_) => None,
    }
}
