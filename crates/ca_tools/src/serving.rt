//! The run of `serve`, over `ca_serve`: a device that has nothing to do, and beacons to this host's
//! repeater.
ghost use Rattle.std.specs.Prelude.{◌<◌, ◌^◌};

use ca_dbr::Value;
use ca_link::{Sink, report};
use ca_script::RecordFile;
use ca_serve::{Device, Options, Places, serve};
use ca_text::Refusal;
use std::alloc::Global;
use std::io::Write;
use std::net::{Ipv4Addr, Net, SocketAddr, TcpListener, TcpStream, UdpSocket};
use std::sync::Wait;
use std::thread::Threads;
use std::time::Clock;

// Where the host's repeater takes beacons.
const BEACONS: u16 = 5065;

// A device that has nothing to do.
#[derive(Clone, Copy, Drop)]
struct NoDevice;

impl Device for NoDevice {
    fn process(&self, _record: &[u8], _value: &Value) {}
}

/// Serves records at these sockets, which are bound to one port, until n circuits were closed, or
/// without end if no number is given. Its device returns at once, and beacons go to this host's
/// repeater. Tells where it serves on the sink and a refusal on `err`, and returns the exit status.
pub fn serve_run<
    R: Threads
        + Wait
        + Clock
        + Net<Stream = TcpStream, Listener = TcpListener>
        + Copy
        + Send
        + 'static,
    K: Sink,
    W: Write,
>(
    rt: R,
    alloc: Global,
    file: RecordFile,
    listener: TcpListener,
    datagrams: UdpSocket,
    circuits: Option<u64>,
    sink: &mut K,
    err: &mut W,
) -> u8
    requires sink_calls { K.call_count sink.old < 2 ^ 63 }
    requires sink_faults { K.fault_count sink.old < 2 ^ 63 }
{
    let places = Places {
        listener,
        datagrams,
        beacons: SocketAddr::from((Ipv4Addr::LOCALHOST, BEACONS)),
    };
    let outcome = served(rt, alloc, file, places, circuits, sink);
    report(outcome, err)
}

// Refused as Device if a socket or a thread cannot be had or the sink fails, and as OutOfMemory.
fn served<
    R: Threads
        + Wait
        + Clock
        + Net<Stream = TcpStream, Listener = TcpListener>
        + Copy
        + Send
        + 'static,
    K: Sink,
>(
    rt: R,
    alloc: Global,
    file: RecordFile,
    places: Places,
    circuits: Option<u64>,
    sink: &mut K,
) -> Result<(), Refusal>
    requires sink_calls { K.call_count sink.old < 2 ^ 63 }
    requires sink_faults { K.fault_count sink.old < 2 ^ 63 }
{
    let RecordFile { records, rules } = file;
    tell(alloc, &places.listener, sink)?;
    let options = Options::new(circuits);
    serve(rt, alloc, places, &records, rules, NoDevice, options)?;
    Ok(())
}

fn tell<K: Sink>(alloc: Global, listener: &TcpListener, sink: &mut K) -> Result<(), Refusal>
    requires sink_calls { K.call_count sink.old < 2 ^ 63 }
    requires sink_faults { K.fault_count sink.old < 2 ^ 63 }
{
    let Ok(address) = listener.local_addr() else {
        return Err(Refusal::Device);
    };
    let mut text = String::new(alloc);
    match writeln!(text, "serving {}", address) {
        Err(_) => Err(Refusal::OutOfMemory),
        Ok(()) => {
            sink.write(text.as_bytes())?;
            Ok(())
        }
    }
}
