use crate::fault::WordsFault;
use std::env;
use std::env::Env;
use std::io::ErrorKind;

/// The words of the command line; the first is the program's own name. A word that isn't UTF-8 is a usage fault.
pub fn line_of<R: Env + AllocGlobal>(rt: &R) -> Result<Vec<String>, WordsFault> {
    let mut words = Vec::new(rt.alloc());
    match env::args(rt) {
        Ok(given) => {
            for word in given {
                if words.push(word).is_err() {
                    return Err(WordsFault::NoMemory);
                }
            }
            Ok(words)
        }
        Err(error) if error.kind() == ErrorKind::OutOfMemory => Err(WordsFault::NoMemory),
        Err(_) => Err(WordsFault::Usage),
    }
}
