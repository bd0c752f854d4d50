//! Clients that speak the protocol by hand.

use ca_text::Refusal;
use std::io::{Read, Write};
use std::net::{Net, SocketAddr, TcpListener, TcpStream};

/// A connection to this address.
pub(crate) fn connected<R: Net<Stream = TcpStream, Listener = TcpListener>>(
    rt: &R,
    address: SocketAddr,
) -> Result<TcpStream, Refusal> {
    match TcpStream::connect(rt, address) {
        Ok(stream) => Ok(stream),
        Err(_) => Err(Refusal::Device),
    }
}

/// Sends these bytes.
pub(crate) fn send(stream: &TcpStream, bytes: &[u8]) -> Result<(), Refusal> {
    let mut wire = stream;
    match wire.write_all(bytes) {
        Ok(()) => Ok(()),
        Err(_) => Err(Refusal::Device),
    }
}

/// Fills this place with the bytes that come.
pub(crate) fn take(stream: &TcpStream, bytes: &mut [u8]) -> Result<(), Refusal> {
    let mut wire = stream;
    match wire.read_exact(bytes) {
        Ok(()) => Ok(()),
        Err(_) => Err(Refusal::Device),
    }
}

/// Greets.
pub(crate) fn greet(stream: &TcpStream) -> Result<(), Refusal> {
    send(stream, &[0, 0, 0, 0, 0, 0, 0, 13, 0, 0, 0, 0, 0, 0, 0, 0])?;
    let mut reply = [0u8; 16];
    take(stream, &mut reply)
}

/// Opens a channel to the record SLO and this letter, under the letter as its CID,
/// and reports its SID.
pub(crate) fn opened(stream: &TcpStream, letter: u8) -> Result<u32, Refusal> {
    send(stream, b"\0\x12\0\x08\0\0\0\0\0\0\0")?;
    send(stream, &[letter])?;
    send(stream, b"\0\0\0\x0DSLO")?;
    send(stream, &[letter, 0, 0, 0, 0])?;
    let mut replies = [0u8; 32];
    take(stream, &mut replies)?;
    Ok(u32::from_be_bytes([replies[28], replies[29], replies[30], replies[31]]))
}

/// Puts a value under IOID 1, with notification.
pub(crate) fn put(stream: &TcpStream, sid: u32, value: u8) -> Result<(), Refusal> {
    send(stream, &[0, 19, 0, 8, 0, 5, 0, 1])?;
    send(stream, &sid.to_be_bytes())?;
    send(stream, &[0, 0, 0, 1, 0, 0, 0, value, 0, 0, 0, 0])
}

/// Whether the put under IOID 1 is done, once its reply is there.
pub(crate) fn is_done(stream: &TcpStream) -> Result<bool, Refusal> {
    let mut reply = [0u8; 16];
    take(stream, &mut reply)?;
    Ok(reply == [0, 19, 0, 0, 0, 5, 0, 1, 0, 0, 0, 1, 0, 0, 0, 1])
}

/// Whether the put under IOID 1 is refused with PUTFAIL.
pub(crate) fn is_refused(stream: &TcpStream) -> Result<bool, Refusal> {
    let mut reply = [0u8; 16];
    take(stream, &mut reply)?;
    Ok(reply == [0, 19, 0, 0, 0, 5, 0, 1, 0, 0, 0, 160, 0, 0, 0, 1])
}

/// The value that a read is answered with.
pub(crate) fn read(stream: &TcpStream, sid: u32) -> Result<u64, Refusal> {
    send(stream, &[0, 15, 0, 0, 0, 5, 0, 1])?;
    send(stream, &sid.to_be_bytes())?;
    send(stream, &[0, 0, 0, 2])?;
    let mut reply = [0u8; 24];
    take(stream, &mut reply)?;
    Ok(reply[19] as u64)
}
