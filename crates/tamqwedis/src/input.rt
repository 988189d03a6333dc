// What the program reads.
use crate::failure::Failure;
use std::fs;
use std::io::Read;

// The file at the path, or standard input where there is none.
pub(crate) fn input(rt: &HostRuntime, path: Option<String>) -> Result<Vec<u8>, Failure> {
    match path {
        Some(path) => fs::read(rt, path.as_str()).map_err(|error| Failure::File(path, error)),
        None => {
            let mut text = Vec::new(rt.alloc());
            rt.stdin().read_to_end(&mut text)?;
            Ok(text)
        }
    }
}
