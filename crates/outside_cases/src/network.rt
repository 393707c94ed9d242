// A network in memory, over which a link sends.

use crate::loopback::told_closed;
use case_lines::{or_else, push_part};
use platform::{Names, TcpLink};
use sso_base::{Blob, NoMemory, Text};
use std::alloc::Global;
use std::io;
use std::io::ErrorKind;
use std::net::{Net, SocketAddr, TcpListener, TcpStream};
use std::sync::atomic::{AtomicU64, Ordering};
use std::time::{Clock, Duration};

// An address, and how often a connection to it was tried.
#[derive(Drop)]
struct Known {
    address: SocketAddr,
    tried: AtomicU64,
}

// A network with these addresses, on which nobody takes a connection, and nobody knows a name. The time of its clock never changes.
#[derive(Drop)]
struct Network {
    alloc: Global,
    known: Vec<Known>,
}

impl Net for Network {
    type Stream = TcpStream;

    type Listener = TcpListener;

    fn bind(&self, _addr: SocketAddr) -> io::Result<TcpListener> {
        Err(io::Error::from(ErrorKind::Unsupported))
    }

    fn connect(&self, addr: SocketAddr) -> io::Result<TcpStream> {
        for known in &self.known {
            if known.address == addr {
                known.tried.fetch_add(1, Ordering::SeqCst);
            }
        }
        Err(io::Error::from(ErrorKind::ConnectionRefused))
    }

    fn connect_timeout(&self, addr: SocketAddr, _timeout: Duration) -> io::Result<TcpStream> {
        self.connect(addr)
    }
}

impl Clock for Network {
    fn monotonic(&self) -> io::Result<Duration> {
        Ok(Duration::ZERO)
    }

    fn since_1970(&self) -> io::Result<Duration> {
        Ok(Duration::ZERO)
    }
}

impl Alloc for Network {
    type A = Global;

    fn alloc(&self) -> Global {
        self.alloc
    }
}

// The network with these addresses, `HOST:PORT`; those that are none are left out.
fn network_in(alloc: Global, fields: &[&str]) -> Result<Network, NoMemory> {
    let mut known = Vec::new(alloc);
    for field in fields {
        if let Ok(address) = field.parse::<SocketAddr>() {
            let tried = AtomicU64::new(0);
            known.push(Known { address, tried })?;
        }
    }
    Ok(Network { alloc, known })
}

// Adds an address to which a connection was tried, and how often, where that is not once.
fn push_tried(alloc: Global, out: &mut String, known: &Known) -> Result<(), NoMemory> {
    let times = known.tried.load(Ordering::SeqCst);
    if times == 0 {
        return Ok(());
    }
    let tried = format!(in alloc; "{} {times}", known.address)?;
    Ok(push_part(out, ", ", tried.as_str())?)
}

fn told_tried(alloc: Global, network: &Network) -> Result<String, NoMemory> {
    let mut out = String::new(alloc);
    for known in &network.known {
        push_tried(alloc, &mut out, known)?;
    }
    or_else(out, "none")
}

// A file of hosts in which a name has the addresses of this network.
fn hosts_in(alloc: Global, network: &Network) -> Result<Blob, NoMemory> {
    let mut hosts = String::new(alloc);
    for known in &network.known {
        let line = format!(in alloc; "{} op.example\n", known.address.ip())?;
        hosts.push_str(line.as_str())?;
    }
    Blob::new(alloc, hosts.as_str().as_bytes())
}

/// `names|HOST|LINE / LINE`: the addresses of a name, if the file of hosts has these lines.
pub fn names(alloc: Global, host: &str, lines: &str) -> Result<String, NoMemory> {
    let text = lines.replace(alloc, " / ", "\n")?;
    let names = Names::new(Blob::new(alloc, text.as_str().as_bytes())?);
    let mut out = String::new(alloc);
    let known = names.addresses(alloc, host)?;
    for address in known.as_slice() {
        let told = format!(in alloc; "{address}")?;
        push_part(&mut out, ", ", told.as_str())?;
    }
    or_else(out, "none")
}

/// `tries|ADDRESS|..`: a link sends to a name with these addresses, on a network where nobody takes a connection. The answer is
/// what the link returns, its number of failures before and after, and the addresses to which it tried to connect, each with
/// the number of times.
pub fn tries(alloc: Global, fields: &[&str]) -> Result<String, NoMemory> {
    let network = network_in(alloc, fields)?;
    let place = Text::new(alloc, "op.example:80")?;
    let names = Names::new(hosts_in(alloc, &network)?);
    let mut link = TcpLink::new(&network, names);
    let told = told_closed(alloc, &mut link, &place)?;
    let tried = told_tried(alloc, &network)?;
    Ok(format!(in alloc; "{} / tried {}", told.as_str(), tried.as_str())?)
}
