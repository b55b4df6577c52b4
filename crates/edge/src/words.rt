//! The words of the command line.

use std::alloc::AllocError as NoMemory;
use std::env;
use std::io::ErrorKind;

/// The words of the command line, without the program's name. Where one of them isn't UTF-8 there are none: it stands in no row.
pub fn words_of(rt: &HostRuntime) -> Result<Vec<String>, NoMemory> {
    let mut words = Vec::new(rt.alloc());
    match env::args(rt) {
        Ok(arguments) => {
            for word in arguments.skip(1) {
                words.push(word)?;
            }
            Ok(words)
        }
        Err(error) if error.kind() == ErrorKind::InvalidData => Ok(words),
        Err(_) => Err(NoMemory),
    }
}
