//! The repeater's core: to whom beacons go, and that it has 64 members at most.
use ca_repeat::{Outgoing, RepeaterCore, UdpAddress};
use ca_text::Refusal;
use std::test::Fail;

/// A beacon that names no address, and the same with the address 127.0.0.1.
const BLANK: &[u8] = b"\x00\x0d\x00\x00\x00\x0d\x13\xc8\0\0\0\x07\0\0\0\0";

const FILLED: &[u8] = b"\x00\x0d\x00\x00\x00\x0d\x13\xc8\0\0\0\x07\x7f\0\0\x01";

const REGISTER: &[u8] = b"\x00\x18\x00\x00\x00\x00\x00\x00\0\0\0\0\x7f\0\0\x01";

const CONFIRM: &[u8] = b"\x00\x11\x00\x00\x00\x00\x00\x00\0\0\0\0\x7f\0\0\x01";

const fn local(port: u16) -> UdpAddress {
    UdpAddress {
        ip: 0x7f00_0001,
        port,
    }
}

/// Whether these bytes go to the members at these ports, in this order.
fn go_to(sends: &[Outgoing], ports: &[u16], bytes: &[u8]) -> bool {
    sends.len() == ports.len()
        && sends.iter().zip(ports).all(|(sent, port)| sent.to() == local(*port)
            && sent.bytes() == bytes)
}

/// Whether a datagram from the member at this port makes these bytes go to the
/// members at these ports.
fn fans(
    repeater: &mut RepeaterCore,
    from: u16,
    datagram: &[u8],
    ports: &[u16],
    bytes: &[u8],
) -> Result<bool, Refusal> {
    let sends = repeater.receive(local(from), datagram)?;
    Ok(go_to(&sends, ports, bytes))
}

#[test]
fn a_beacon_goes_to_the_others(rt: HostRuntime) -> Result<(), Fail> {
    let mut repeater = RepeaterCore::new(rt.alloc());
    let others = [40_001, 40_002].as_slice();
    let rows: [(u16, &[u8], &[u16], &[u8]); 5] = [
        (40_000, REGISTER, &[40_000], CONFIRM),
        (40_001, REGISTER, &[40_001], CONFIRM),
        (40_002, REGISTER, &[40_002], CONFIRM),
        (40_000, BLANK, others, FILLED),
        (40_000, FILLED, others, FILLED),
    ];
    for (from, datagram, ports, bytes) in rows {
        assert!(rt; fans(&mut repeater, from, datagram, ports, bytes)?);
    }
    repeater.refused(local(40_001));
    assert!(rt; fans(&mut repeater, 40_000, BLANK, &[40_002], FILLED)?);
    Ok(())
}

#[test]
fn a_65th_member_gets_nothing(rt: HostRuntime) -> Result<(), Fail> {
    let mut repeater = RepeaterCore::new(rt.alloc());
    for port in 40_000..40_064 {
        assert!(rt; fans(&mut repeater, port, REGISTER, &[port], CONFIRM)?);
    }
    assert!(rt; fans(&mut repeater, 40_064, REGISTER, &[], CONFIRM)?);
    assert!(rt; fans(&mut repeater, 40_063, REGISTER, &[40_063], CONFIRM)?);
    let sends = repeater.receive(local(40_064), BLANK)?;
    assert!(rt; sends.len() == 64 && sends.iter().all(|sent| sent.to() != local(40_064)));
    Ok(())
}
