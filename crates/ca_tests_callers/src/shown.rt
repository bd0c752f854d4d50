//! A server whose records have display data, for clients of other makes.

use crate::server::IdleDevice;
use ca_display::read_display;
use ca_records::Records;
use ca_serve::{Options, Places, serve};
use ca_text::Refusal;
use std::alloc::Global;
use std::io::Write;
use std::net::{Ipv4Addr, Net, SocketAddr, TcpListener, TcpStream, UdpSocket};
use std::sync::{Arc, Wait};
use std::thread::Threads;
use std::time::Clock;

/// Serves records at this port until it is killed. Each record is five words: its name, greatest
/// count, a type from 21 to 34, a count, and an image of these in hexadecimal digits.
pub(crate) fn run<
    R: Threads
        + Wait
        + Clock
        + Net<Stream = TcpStream, Listener = TcpListener>
        + Copy
        + Drop
        + Send
        + 'static,
    W: Write,
>(rt: R, alloc: Global, port: &str, words: &[String], out: &mut W) -> Result<(), Refusal> {
    let local = SocketAddr::from((Ipv4Addr::LOCALHOST, number(port)? as u16));
    let Ok(listener) = TcpListener::bind(&rt, local) else {
        return Err(Refusal::Device);
    };
    let Ok(datagrams) = UdpSocket::bind(&rt, local) else {
        return Err(Refusal::Device);
    };
    let places = Places {
        listener,
        datagrams,
        beacons: SocketAddr::from((Ipv4Addr::LOCALHOST, 5065)),
    };
    let records = records(alloc, words)?;
    if writeln!(out, "serving 127.0.0.1:{port}").is_err() {
        return Err(Refusal::Device);
    }
    let options = Options::new(None);
    serve(
        rt,
        alloc,
        places,
        &records,
        Vec::new(alloc),
        IdleDevice,
        options,
    )?;
    Ok(())
}

fn records(alloc: Global, words: &[String]) -> Result<Records, Refusal> {
    let mut records = Records::new(alloc);
    for row in words.chunks_exact(5) {
        let mut image = vec![in alloc; 0; row[4].len() / 2]?;
        let Ok(()) = hex::decode_to_slice(row[4].as_bytes(), &mut image) else {
            return Err(Refusal::BadText);
        };
        let (value, _, display) = read_display(
            alloc,
            number(row[2].as_str())? as u16,
            number(row[3].as_str())?,
            &image,
        )?;
        let display = Arc::new(alloc, display)?;
        records.define_displayed(
            row[0].as_bytes(),
            number(row[1].as_str())?,
            false,
            value,
            display,
        )?;
    }
    Ok(records)
}

fn number(word: &str) -> Result<u32, Refusal> {
    match word.parse::<u32>() {
        Ok(number) => Ok(number),
        Err(_) => Err(Refusal::BadText),
    }
}
