//! The bytes of a file, for `answer` and `replay`, which judge all of it before they begin.
ghost use Rattle.std.specs.Prelude.{IfOk};
ghost use Rattle.ca.specs.Files.{Gives};

use ca_text::Refusal;
use std::alloc::Global;
use std::io::{self, Error, ErrorKind, Read};

/// All bytes of a file. One that could not be opened, or cannot be read, is refused as Device.
pub(crate) fn bytes_of<F: Read + Drop>(
    alloc: Global,
    file: io::Result<F>,
) -> Result<Vec<u8>, Refusal>
    ensures { IfOk result (λ bytes. Gives F.remaining file bytes.items) }
{
    match file {
        Err(error) => Err(refusal_of(&error)),
        Ok(mut file) => {
            let mut bytes = Vec::new(alloc);
            match file.read_to_end(&mut bytes) {
                Err(error) => Err(refusal_of(&error)),
                Ok(_) => Ok(bytes),
            }
        }
    }
}

fn refusal_of(error: &Error) -> Refusal {
    match error.kind() {
        ErrorKind::OutOfMemory => Refusal::OutOfMemory,
        _ => Refusal::Device,
    }
}
