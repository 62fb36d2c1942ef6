//! Addresses of hosts.

use std::io;
use std::net::{IpAddr, Net, SocketAddr, ToSocketAddrs};

/// The first address of a host, by its number or its name, which the system looks up; `None` where
/// it has none. The error is the system's.
pub fn resolve(net: &impl Net, host: &str, port: u16) -> io::Result<Option<SocketAddr>> {
    if let Ok(ip) = host.parse::<IpAddr>() {
        return Ok(Some(SocketAddr::new(ip, port)));
    }
    let mut found = (host, port).to_socket_addrs(net)?;
    Ok(found.next())
}
