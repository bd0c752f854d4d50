//! A server of LONGs that speaks the protocol by hand with one client.

use crate::server::bound;
use crate::wire::{send, take};
use ca_serve::Places;
use ca_text::Refusal;
use std::net::{Net, SocketAddr, TcpListener, TcpStream, UdpSocket};
use std::thread;
use std::time::{Clock, Duration};

/// A client is waited for this long.
const SECONDS: u64 = 10;

const CREATE: u16 = 18;

/// The name of the record, as a search has it: with zeros up to 8 bytes.
pub(crate) const TEMP: [u8; 8] = *b"TEMP\0\0\0\0";

/// This many datagrams are looked through for a search.
const LOOKED_THROUGH: u64 = 1_000;

/// Where searches and circuits of a client come in.
#[derive(Drop)]
pub(crate) struct Peer {
    listener: TcpListener,
    datagrams: UdpSocket,
    pub(crate) port: u16,
}

/// What the header of a message says.
#[derive(Clone, Copy, Debug, PartialEq, Eq)]
pub(crate) struct PeerMessage {
    pub(crate) command: u16,
    pub(crate) data_type: u16,
    pub(crate) count: u16,
    pub(crate) p1: u32,
    pub(crate) p2: u32,
}

impl Peer {
    pub(crate) fn new<R: Net<Stream = TcpStream, Listener = TcpListener>>(
        rt: &R,
    ) -> Result<Peer, Refusal> {
        let (places, address) = bound(rt)?;
        let Places {
            listener,
            datagrams,
            ..
        } = places;
        let most = Some(Duration::from_secs(SECONDS));
        if listener.set_nonblocking(true).is_err() || datagrams.set_read_timeout(most).is_err() {
            return Err(Refusal::Device);
        }
        Ok(Peer {
            listener,
            datagrams,
            port: address.port(),
        })
    }

    /// The next datagram's bytes, as far as there is room, and where it came from.
    pub(crate) fn datagram(&self, bytes: &mut [u8]) -> Result<SocketAddr, Refusal> {
        match self.datagrams.recv_from(bytes) {
            Ok((_, from)) => Ok(from),
            Err(_) => Err(Refusal::Device),
        }
    }

    /// Sends a datagram.
    pub(crate) fn send(&self, bytes: &[u8], to: SocketAddr) -> Result<(), Refusal> {
        match self.datagrams.send_to(bytes, to) {
            Ok(_) => Ok(()),
            Err(_) => Err(Refusal::Device),
        }
    }

    /// The next circuit.
    pub(crate) fn accept<R: Clock>(&self, rt: &R) -> Result<TcpStream, Refusal> {
        for _ in 0..SECONDS * 1_000 {
            match self.accept_now() {
                Some(stream) => return Ok(stream),
                None => thread::sleep(rt, Duration::from_millis(1)),
            }
        }
        Err(Refusal::Device)
    }

    /// The CID of the next search for this name, of up to 8 bytes, and who asks. Those for
    /// others are left out.
    pub(crate) fn searched(&self, name: [u8; 8]) -> Result<(u32, SocketAddr), Refusal> {
        for _ in 0..LOOKED_THROUGH {
            let mut bytes = [0u8; 2_048];
            let from = self.datagram(&mut bytes)?;
            if let Some(cid) = cid_of(&bytes, name) {
                return Ok((cid, from));
            }
        }
        Err(Refusal::Device)
    }

    /// Answers a search: its channel is here.
    pub(crate) fn answer(&self, cid: u32, to: SocketAddr) -> Result<(), Refusal> {
        let mut found = [0u8; 40];
        found[7] = 13;
        found[17] = 6;
        found[19] = 8;
        found[20..22].copy_from_slice(&self.port.to_be_bytes());
        found[24..28].copy_from_slice(&u32::MAX.to_be_bytes());
        found[28..32].copy_from_slice(&cid.to_be_bytes());
        found[33] = 13;
        self.send(&found, to)
    }

    /// A circuit, if one waits.
    pub(crate) fn accept_now(&self) -> Option<TcpStream> {
        let (stream, _) = self.listener.accept().ok()?;
        let most = Some(Duration::from_secs(SECONDS));
        stream.set_read_timeout(most).ok()?;
        stream.set_nodelay(true).ok()?;
        Some(stream)
    }

    /// Answers the next search for TEMP, and has the channel created on a new circuit, which it
    /// tells with its first message.
    pub(crate) fn live<R: Clock>(
        &self,
        rt: &R,
        count: u16,
    ) -> Result<(TcpStream, PeerMessage), Refusal> {
        let (cid, to) = self.searched(TEMP)?;
        self.answer(cid, to)?;
        let stream = self.accept(rt)?;
        let greeting = next_message(&stream)?;
        for _ in 0..3 {
            let message = next_message(&stream)?;
            if message.command == CREATE {
                create(&stream, message.p1, count)?;
                return Ok((stream, greeting));
            }
        }
        Err(Refusal::NotLive)
    }
}

/// The CID of a search for this name in a datagram: the name comes right after the CID,
/// which is there twice.
fn cid_of(datagram: &[u8], name: [u8; 8]) -> Option<u32> {
    let mut cid = 0u32;
    for part in datagram.chunks(8) {
        if part == name.as_slice() {
            return Some(cid);
        }
        cid = u32::from_be_bytes([part[0], part[1], part[2], part[3]]);
    }
    None
}

/// A channel to n LONGs that may be read and written. Its SID is its CID.
pub(crate) fn create(stream: &TcpStream, cid: u32, count: u16) -> Result<(), Refusal> {
    let rights = PeerMessage {
        command: 22,
        data_type: 0,
        count: 0,
        p1: cid,
        p2: 3,
    };
    tell_message(stream, rights, &[])?;
    let created = PeerMessage {
        command: CREATE,
        data_type: 5,
        count,
        p1: cid,
        p2: cid,
    };
    tell_message(stream, created, &[])
}

/// The next message of a circuit, whose payload is short.
pub(crate) fn next_message(stream: &TcpStream) -> Result<PeerMessage, Refusal> {
    let mut header = [0u8; 16];
    take(stream, &mut header)?;
    let size = usize::from(u16::from_be_bytes([header[2], header[3]]));
    let mut payload = [0u8; 64];
    let Some(payload) = payload.get_mut(..size) else {
        return Err(Refusal::TooLarge);
    };
    take(stream, payload)?;
    Ok(PeerMessage {
        command: u16::from_be_bytes([header[0], header[1]]),
        data_type: u16::from_be_bytes([header[4], header[5]]),
        count: u16::from_be_bytes([header[6], header[7]]),
        p1: u32::from_be_bytes([header[8], header[9], header[10], header[11]]),
        p2: u32::from_be_bytes([header[12], header[13], header[14], header[15]]),
    })
}

/// Sends a message with this payload, of a multiple of 8 bytes up to 48, in one write: so it
/// is there as a whole.
pub(crate) fn tell_message(
    stream: &TcpStream,
    message: PeerMessage,
    payload: &[u8],
) -> Result<(), Refusal> {
    let mut bytes = [0u8; 64];
    bytes[0..16].copy_from_slice(&header_of(message, payload.len()));
    let end = payload.len().saturating_add(16);
    let Some(place) = bytes.get_mut(16..end) else {
        return Err(Refusal::TooLarge);
    };
    place.copy_from_slice(payload);
    send(stream, &bytes[0..end])
}

/// The header of a message with n bytes of payload.
pub(crate) fn header_of(message: PeerMessage, size: usize) -> [u8; 16] {
    let mut header = [0u8; 16];
    header[0..2].copy_from_slice(&message.command.to_be_bytes());
    header[2..4].copy_from_slice(&u16::try_from(size).unwrap_or(0).to_be_bytes());
    header[4..6].copy_from_slice(&message.data_type.to_be_bytes());
    header[6..8].copy_from_slice(&message.count.to_be_bytes());
    header[8..12].copy_from_slice(&message.p1.to_be_bytes());
    header[12..16].copy_from_slice(&message.p2.to_be_bytes());
    header
}

/// Answers a request, or a subscription, by a value of one LONG.
pub(crate) fn tell_value(
    stream: &TcpStream,
    request: PeerMessage,
    value: u8,
) -> Result<(), Refusal> {
    let reply = PeerMessage { p1: 1, ..request };
    tell_message(stream, reply, &[0, 0, 0, value, 0, 0, 0, 0])
}

/// Answers a subscription by three updates of one LONG, in one write: so they are read together.
pub(crate) fn tell_updates(
    stream: &TcpStream,
    request: PeerMessage,
    values: [u8; 3],
) -> Result<(), Refusal> {
    let mut bytes = [0u8; 72];
    let header = header_of(PeerMessage { p1: 1, ..request }, 8);
    for (update, value) in bytes.chunks_mut(24).zip(&values) {
        update[0..16].copy_from_slice(&header);
        update[19] = *value;
    }
    send(stream, &bytes)
}
