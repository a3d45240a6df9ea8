//! The words of the command line.
use std::rt::Env;
use std::{env, io};

/// The arguments without the program's name. An argument that isn't UTF-8 makes them no words at all.
pub(crate) fn words_given<R: Env + AllocGlobal>(rt: &R) -> io::Result<Vec<String>> {
    let mut words = Vec::new(rt.alloc());
    match env::args(rt) {
        Ok(arguments) => {
            for word in arguments.skip(1) {
                words.push(word)?;
            }
            Ok(words)
        }
        Err(error) if error.kind() == io::ErrorKind::InvalidData => Ok(words),
        Err(error) => Err(error),
    }
}
