//! Datagrams: the messages that are always the same, byte by byte, and a search that is cut after
//! each byte.
use ca_dbr::Value;
use ca_dgram::{Datagram, beacon, confirm, register};
use ca_records::Records;
use ca_server_core::ServerCore;
use std::net::Ipv4Addr;
use std::test::Fail;

/// VERSION, and a search for TEMP.
const SEARCH: &[u8] =
    b"\0\0\0\0\0\0\0\x0d\0\0\0\0\0\0\0\0\0\x06\0\x08\0\x05\0\x0d\0\x01\0\0\0\x01\0\0TEMP\0\0\0\0";

/// What a server on port 5064 answers.
const REPLY: &[u8] =
    b"\0\0\0\0\0\0\0\x0d\0\0\0\0\0\0\0\0\0\x06\0\x08\x13\xc8\0\0\xff\xff\xff\xff\0\x01\0\0\0\x0d\
        \0\0\0\0\0\0";

#[test]
fn fixed_messages_are_written(rt: HostRuntime) {
    let rows: [([u8; 16], &[u8; 16]); 4] = [
        (
            beacon(0, 5_064),
            b"\x00\x0d\x00\x00\x00\x0d\x13\xc8\0\0\0\0\0\0\0\0",
        ),
        (
            beacon(7, 5_064),
            b"\x00\x0d\x00\x00\x00\x0d\x13\xc8\0\0\0\x07\0\0\0\0",
        ),
        (
            register(Ipv4Addr::LOCALHOST),
            b"\x00\x18\x00\x00\x00\x00\x00\x00\0\0\0\0\x7f\x00\x00\x01",
        ),
        (
            confirm(),
            b"\x00\x11\x00\x00\x00\x00\x00\x00\0\0\0\0\x7f\x00\x00\x01",
        ),
    ];
    for (written, wanted) in rows {
        assert!(rt; written == *wanted);
    }
}

#[test]
fn a_search_that_is_cut_is_not_there(rt: HostRuntime) -> Result<(), Fail> {
    let alloc = rt.alloc();
    let mut records = Records::new(alloc);
    records.define(b"TEMP", 1, false, Value::Longs(vec![in alloc; 21; 1]?))?;
    let server = ServerCore::new(5_064, 0, &records, Vec::new(alloc))?;
    for n in 0..SEARCH.len() + 1 {
        let messages = if n < 16 {
            0
        } else if n < 40 {
            1
        } else {
            2
        };
        assert_eq!(rt;
            Datagram::read(alloc, &SEARCH[..n])?.messages().len(),
            messages
        );
        let replies = server.datagram(&SEARCH[..n])?;
        assert_eq!(rt; replies.len(), usize::from(n == 40));
        assert!(rt; replies.iter().all(|reply| reply.as_slice() == REPLY));
    }
    Ok(())
}
