// The program `ca`: its words and the system's streams, handed to the library of that name.
#![tactic(auto)]

use ca_link::{Reader, Writer, not_understood, report};
use ca_text::Refusal;
use std::env;
use std::io::ErrorKind;
use std::process::ExitCode;

/// The number of standard error among the files of a process.
const STANDARD_ERROR: i32 = 2;

fn main(rt: HostRuntime) -> ExitCode {
    let mut err = rt.stderr();
    let status = match words(&rt) {
        Ok(Some(words)) => {
            let mut sink = Writer::new(rt.stdout());
            // The lines that take threads are `ca_tools`', the others `ca`'s.
            if ca_tools::takes(words.as_slice()) {
                ca_tools::run(rt, rt.alloc(), words.as_slice(), &mut sink, &mut err)
            } else {
                ca::run(
                    &rt,
                    rt.alloc(),
                    words.as_slice(),
                    &mut Reader::new(rt.stdin()),
                    &mut sink,
                    &mut err,
                    libc::isatty(STANDARD_ERROR) == 1,
                )
            }
        }
        Ok(None) => not_understood(&mut err),
        Err(refusal) => report(Err(refusal), &mut err),
    };
    ExitCode::from(status)
}

/// The words after the program's name: none if one of them is no text.
fn words(rt: &HostRuntime) -> Result<Option<Vec<String>>, Refusal> {
    let all = match env::args(rt) {
        Ok(all) => all,
        Err(error) => match error.kind() {
            ErrorKind::OutOfMemory => return Err(Refusal::OutOfMemory),
            _ => return Ok(None),
        },
    };
    let mut words = Vec::new(rt.alloc());
    for word in all.skip(1) {
        words.push(word)?;
    }
    Ok(Some(words))
}
