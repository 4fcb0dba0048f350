use crate::{Datagrams, Got, UdpDatagrams};
use std::alloc::Global;
use std::net::{Ipv4Addr, Net, UdpSocket};

/// A port of this machine at which nothing listens.
fn free_port<R: Net>(rt: &R) -> Option<u16> {
    let socket = UdpSocket::bind(rt, (Ipv4Addr::LOCALHOST, 0)).ok()?;
    let address = socket.local_addr().ok()?;
    Some(address.port())
}

/// What comes next, and whether its bytes begin with a text.
fn next(alloc: Global, datagrams: &mut UdpDatagrams, text: &str) -> Option<(Got, bool)> {
    let mut room = vec![in alloc; 0u8; 65_535].ok()?;
    let got = datagrams.recv(room.as_mut_slice()).ok()?;
    Some((got, room.as_slice().starts_with(text.as_bytes())))
}

#[test]
fn received_on_loopback(rt: HostRuntime) {
    let alloc = rt.alloc();
    let Some(port) = free_port(&rt) else {
        assert!(rt; false, "no port is free");
        return;
    };
    let Ok(address) = format!(in alloc; "127.0.0.1:{port}") else {
        assert!(rt; false, "memory is short");
        return;
    };
    let (Ok(mut datagrams), Ok(sender)) = (
        UdpDatagrams::bind(&rt, address.as_str()),
        UdpSocket::bind(&rt, (Ipv4Addr::LOCALHOST, 0)),
    ) else {
        assert!(rt; false, "no socket");
        return;
    };
    assert_eq!(rt; next(alloc, &mut datagrams, ""), Some((Got::Quiet, true)));
    for text in ["hits:1|c", "", "load:-1|g\nx"] {
        assert!(rt;
            sender
                .send_to(text.as_bytes(), (Ipv4Addr::LOCALHOST, port))
                .is_ok()
        );
        assert_eq!(rt;
            next(alloc, &mut datagrams, text),
            Some((Got::Packet(text.len()), true))
        );
    }
    assert_eq!(rt; next(alloc, &mut datagrams, ""), Some((Got::Quiet, true)));
}
