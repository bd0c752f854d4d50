//! A server in a thread of its own.

use ca_dbr::Value;
use ca_script::RecordFile;
use ca_serve::{Device, Options, Places, serve};
use ca_text::Refusal;
use std::alloc::Global;
use std::net::{Ipv4Addr, Net, SocketAddr, TcpListener, TcpStream, UdpSocket};
use std::sync::Wait;
use std::thread;
use std::thread::{JoinHandle, Threads};
use std::time::Clock;

/// A device that has nothing to do.
#[derive(Clone, Copy, Drop)]
pub(crate) struct IdleDevice;

impl Device for IdleDevice {
    fn process(&self, _record: &[u8], _value: &Value) {}
}

/// The server's sockets, on one port of the system's choice, and their address.
pub(crate) fn bound<R: Net<Stream = TcpStream, Listener = TcpListener>>(
    rt: &R,
) -> Result<(Places, SocketAddr), Refusal> {
    let any = SocketAddr::from((Ipv4Addr::LOCALHOST, 0));
    let Ok(listener) = TcpListener::bind(rt, any) else {
        return Err(Refusal::Device);
    };
    let Ok(address) = listener.local_addr() else {
        return Err(Refusal::Device);
    };
    let Ok(datagrams) = UdpSocket::bind(rt, address) else {
        return Err(Refusal::Device);
    };
    let beacons = SocketAddr::from((Ipv4Addr::LOCALHOST, 5065));
    Ok((
        Places {
            listener,
            datagrams,
            beacons,
        },
        address,
    ))
}

/// Serves these records, with a device that has nothing to do, until n circuits are closed.
pub(crate) fn start_server<
    R: Threads
        + Wait
        + Clock
        + Net<Stream = TcpStream, Listener = TcpListener>
        + Copy
        + Drop
        + Send
        + 'static,
>(
    rt: R,
    alloc: Global,
    places: Places,
    file: RecordFile,
    circuits: u64,
) -> Result<JoinHandle<Result<u64, Refusal>>, Refusal> {
    let spawned = thread::spawn(&rt, move || {
        let RecordFile { records, rules } = file;
        let options = Options::new(Some(circuits));
        serve(rt, alloc, places, &records, rules, IdleDevice, options)
    });
    match spawned {
        Ok(server) => Ok(server),
        Err(_) => Err(Refusal::Device),
    }
}
