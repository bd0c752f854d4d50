//! The repeater over sockets of this host, and over datagrams in memory, where one member takes
//! none.
use ca::{Datagrams, RepeaterSocket, repeat, repeater_run};
use ca_link::Fault;
use ca_repeat::UdpAddress;
use ca_text::Refusal;
use std::alloc::Global;
use std::io;
use std::net::{Ipv4Addr, Net, SocketAddr, UdpSocket};
use std::process::Abort;
use std::test::Fail;
use std::time::Duration;

/// A beacon that names no address.
const BLANK: &[u8] = b"\x00\x0d\x00\x00\x00\x0d\x13\xc8\0\0\0\x07\0\0\0\0";

const CONFIRM: &[u8] = b"\x00\x11\x00\x00\x00\x00\x00\x00\0\0\0\0\x7f\0\0\x01";

/// A socket on this host, which waits for a datagram for ten seconds.
fn bound<R: Net>(net: &R) -> io::Result<UdpSocket> {
    let socket = UdpSocket::bind(net, (Ipv4Addr::LOCALHOST, 0u16))?;
    socket.set_read_timeout(Some(Duration::from_secs(10)))?;
    Ok(socket)
}

/// The socket hears this from the repeater, and then nothing.
fn hears<R: AllocGlobal + Abort>(
    rt: &R,
    socket: &UdpSocket,
    repeater: SocketAddr,
    wanted: &[&[u8]],
) -> Result<(), Fail> {
    let mut buffer = vec![in rt.alloc(); 0u8; 65_535]?;
    for bytes in wanted {
        let (size, from) = socket.recv_from(&mut buffer)?;
        assert!(rt; from == repeater);
        assert_eq!(rt; &buffer[..size], *bytes);
    }
    socket.set_nonblocking(true)?;
    assert!(rt; socket.recv_from(&mut buffer).is_err());
    Ok(())
}

/// A member registers at this address, another socket sends a datagram there, and the
/// repeater handles both.
fn pass_on<R: AllocGlobal + Net + Abort>(
    rt: &R,
    repeater: UdpSocket,
    member: &UdpSocket,
    datagram: &[u8],
) -> Result<(), Fail> {
    let at = repeater.local_addr()?;
    member.send_to(b"", at)?;
    bound(rt)?.send_to(datagram, at)?;
    let mut told = Vec::new(rt.alloc());
    let status = repeater_run(
        rt.alloc(),
        &mut RepeaterSocket::new(rt, repeater),
        Some(2),
        &mut told,
    );
    assert_eq!(rt; status, 0);
    Ok(())
}

#[test]
fn the_greatest_datagram_goes_on_whole(rt: HostRuntime) -> Result<(), Fail> {
    let repeater = bound(&rt)?;
    let at = repeater.local_addr()?;
    let member = bound(&rt)?;
    // IPv4 has room for as many bytes after its header and UDP's.
    let datagram = vec![in rt.alloc(); 0u8; 65_507]?;
    pass_on(&rt, repeater, &member, &datagram)?;
    hears(&rt, &member, at, &[CONFIRM, &datagram])
}

#[test]
fn a_failing_receive_is_refused(rt: HostRuntime) -> Result<(), Fail> {
    let repeater = bound(&rt)?;
    repeater.set_nonblocking(true)?;
    let mut told = Vec::new(rt.alloc());
    let status = repeater_run(
        rt.alloc(),
        &mut RepeaterSocket::new(&rt, repeater),
        None,
        &mut told,
    );
    assert_eq!(rt; status, 1);
    assert!(rt; told.as_slice() == "refused: 23 Device\n".as_bytes());
    Ok(())
}

/// Datagrams in memory: those that come, and whither one was tried to be sent.
/// One address takes none.
#[derive(Drop)]
struct ScriptedDatagrams<'a> {
    coming: &'a [(UdpAddress, &'a [u8])],
    taken: usize,
    deaf: UdpAddress,
    tried: Vec<UdpAddress>,
}

impl<'a> Datagrams for ScriptedDatagrams<'a> {
    ghost use Rattle.std.specs.Prelude.{⊤};

    ghost came = { λ _ _ _ _. ⊤ };

    ghost went = { λ _ _ _ _. ⊤ };

    ghost refuses = { λ _ _ _ _. ⊤ };

    ghost fails = { λ _ _. ⊤ };

    fn address(&self) -> Result<UdpAddress, Fault> {
        Err(Fault)
    }

    fn receive(&mut self, buffer: &mut [u8]) -> Result<(usize, UdpAddress), Fault> {
        let Some((from, bytes)) = self.coming.get(self.taken) else {
            return Err(Fault);
        };
        self.taken += 1;
        let size = bytes.len().min(buffer.len());
        buffer[..size].copy_from_slice(&bytes[..size]);
        Ok((size, *from))
    }

    fn send(&mut self, to: UdpAddress, _bytes: &[u8]) -> Result<(), Fault> {
        match self.tried.push(to) {
            Ok(()) if to != self.deaf => Ok(()),
            _ => Err(Fault),
        }
    }
}

const MEMBER: UdpAddress = UdpAddress {
    ip: 0x7f00_0001,
    port: 40_000,
};

const DEAF: UdpAddress = UdpAddress {
    ip: 0x7f00_0001,
    port: 40_001,
};

const SERVER: UdpAddress = UdpAddress {
    ip: 0x0a00_0001,
    port: 5_064,
};

/// Whether the member that takes nothing is dropped: of three datagrams the third
/// comes to the other alone.
fn is_dropped(alloc: Global, script: &mut ScriptedDatagrams<'_>) -> bool {
    repeat(alloc, script, 3) == Ok(())
        && script.tried.as_slice() == [MEMBER, DEAF, MEMBER].as_slice()
}

#[test]
fn a_member_that_takes_nothing_is_dropped(rt: HostRuntime) -> Result<(), Fail> {
    let coming: [(UdpAddress, &[u8]); 4] = [
        (MEMBER, b""),
        (DEAF, b""),
        (SERVER, BLANK),
        (SERVER, BLANK),
    ];
    let mut script = ScriptedDatagrams {
        coming: coming.as_slice(),
        taken: 0,
        deaf: DEAF,
        tried: Vec::new(rt.alloc()),
    };
    assert!(rt; is_dropped(rt.alloc(), &mut script));
    // A new run knows no members, and the fifth datagram does not come.
    assert!(rt; repeat(rt.alloc(), &mut script, 2) == Err(Refusal::Device));
    assert_eq!(rt; script.tried.len(), 3);
    Ok(())
}
