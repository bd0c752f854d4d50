//! What the words after `serve` ask for, and how a word is an address, for the other lines too.
use ca_script::{Words, decimal, read_server};
use ca_text::Refusal;
use clap::error::ErrorKind;
use clap::{Arg, Command};
use std::alloc::{AllocError, Global};
use std::net::{Ipv4Addr, SocketAddrV4};

/// `serve --records FILE --listen A:P [--circuits N]`: the file of the records, where circuits and
/// datagrams are taken, and how many circuits are to be closed until it ends, if it ends at all.
#[derive(Clone, Copy, Debug, PartialEq, Eq)]
pub struct ServeLine<'a> {
    pub records: &'a str,
    pub listen: SocketAddrV4,
    pub circuits: Option<u64>,
}

/// Reads the words after `serve`: none if they are not understood.
pub fn read_serve<'a>(
    alloc: Global,
    words: &'a [String],
) -> Result<Option<ServeLine<'a>>, Refusal> {
    // At this word clap would end the options.
    if words.iter().any(|word| word.as_str() == "--") {
        return Ok(None);
    }
    let command = grammar(alloc)?;
    match command.try_get_matches_from(words) {
        Ok(matches) => Ok(meant(
            matches.get_str("records"),
            matches.get_str("listen"),
            matches.get_str("circuits"),
        )),
        Err(error) => match error.kind() {
            ErrorKind::OutOfMemory => Err(Refusal::OutOfMemory),
            _ => Ok(None),
        },
    }
}

fn grammar<'a>(alloc: Global) -> Result<Command<'a>, AllocError> {
    let records = Arg::new(alloc, "records").long("records");
    let listen = Arg::new(alloc, "listen").long("listen");
    let circuits = Arg::new(alloc, "circuits").long("circuits");
    Command::new(alloc, "serve")
        .no_binary_name(true)
        .disable_help_flag(true)
        .arg(records)?
        .arg(listen)?
        .arg(circuits)
}

/// What the options' values mean: nothing if one is missing, is no address, or no number.
fn meant<'a>(
    records: Option<&'a str>,
    listen: Option<&str>,
    circuits: Option<&str>,
) -> Option<ServeLine<'a>> {
    let records = records?;
    let listen = socket_address(listen?)?;
    let circuits = match circuits {
        None => None,
        Some(text) => Some(decimal(text.as_bytes())?),
    };
    Some(ServeLine {
        records,
        listen,
        circuits,
    })
}

/// The address that a word is, dotted and with a port, in decimal numbers as scripts have them:
/// none if it is no such word.
pub(crate) fn socket_address(word: &str) -> Option<SocketAddrV4> {
    let (address, port) = read_server(Words::new(word.as_bytes())).ok()?;
    Some(SocketAddrV4::new(Ipv4Addr::from_bits(address), port))
}
