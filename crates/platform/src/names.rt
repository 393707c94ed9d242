//! The names that this machine knows by itself.

use crate::shelf::read_file;
use sso_base::{Blob, NoMemory, ShelfNo, Text};
use std::alloc::Global;
use std::net::{IpAddr, Ipv4Addr, Ipv6Addr};
use std::rt::Files;

/// Where a machine keeps the names of addresses (hosts(5)).
const HOSTS: &str = "/etc/hosts";

/// How many bytes of that file are read at most.
const MOST: usize = 1_048_576;

/// The names that a machine knows by itself: `localhost` and those below it (RFC 6761, 6.3), and the names in its file of hosts. No
/// other machine is asked for a name, so a look-up never waits for an answer.
#[derive(Drop)]
pub struct Names {
    hosts: Blob,
}

impl Names {
    /// The names of a file of hosts with this text.
    pub fn new(hosts: Blob) -> Names {
        Names { hosts }
    }

    /// The names of this machine, as its file says now; without that file, `localhost` alone.
    ///
    /// # Errors
    ///
    /// `NoMemory` if memory ran out.
    pub fn of_machine<R: Files>(alloc: Global, files: &R) -> Result<Names, NoMemory> {
        let name = Text::new(alloc, HOSTS)?;
        match read_file(alloc, files, &name, MOST) {
            Ok(hosts) => Ok(Names { hosts }),
            Err(ShelfNo::NoMemory) => Err(NoMemory),
            Err(_) => Ok(Names {
                hosts: Blob::new(alloc, b"")?,
            }),
        }
    }

    /// The addresses of a name, in their order; none if this machine does not know it.
    pub fn addresses(&self, alloc: Global, host: &str) -> Result<Vec<IpAddr>, NoMemory> {
        let mut found = Vec::new(alloc);
        if is_localhost(host) {
            found.push(IpAddr::V4(Ipv4Addr::LOCALHOST))?;
            found.push(IpAddr::V6(Ipv6Addr::LOCALHOST))?;
            return Ok(found);
        }
        if let Ok(text) = str::from_utf8(self.hosts.as_bytes()) {
            for line in text.split('\n') {
                if let Some(address) = address_in(line, host) {
                    found.push(address)?;
                }
            }
        }
        Ok(found)
    }
}

// Whether a name is `localhost`, or below it.
fn is_localhost(host: &str) -> bool {
    match host.rsplit_once('.') {
        Some((_, last)) => last.eq_ignore_ascii_case("localhost"),
        None => host.eq_ignore_ascii_case("localhost"),
    }
}

// The address in a line of the file, if it has this name: an address, its names, and perhaps a comment.
fn address_in(line: &str, host: &str) -> Option<IpAddr> {
    let line = match line.split_once('#') {
        Some((front, _)) => front,
        None => line,
    };
    let mut words = line.split_whitespace();
    let address = words.next()?;
    for word in words {
        if word.eq_ignore_ascii_case(host) {
            return address.parse::<IpAddr>().ok();
        }
    }
    None
}
