//! The trusted edge: a link over the system's sockets, and its clock. They tell nothing of what they hold.
ghost use Rattle.std.specs.Prelude.{◌≡◌, ◌≤◌, None, is_some, length, IfOk, IfSome};

use crate::clocks::Clock;
use crate::links::Link;
use crate::peer::{Got, Peer};
use edge_io::{Failed, PutFault};
use std::alloc::Global;
use std::io::ErrorKind;
use std::net::{Ipv4Addr, Net, SocketAddr, SocketAddrV4, UdpSocket};
use std::time;
use std::time::Duration;

/// How many microseconds a call waits where nothing has come: less than a millisecond. A socket's own limit would be a
/// multiple of the system's tick, which may be longer.
const WAIT_MICROS: u64 = 900;

/// How often a datagram is tried where the system has no room for it yet.
const TRIES: u32 = 20;

/// A link over a socket of UDP in IPv4.
#[derive(Drop)]
pub struct UdpLink<'a, R> {
    system: &'a R,
    socket: Option<UdpSocket>,
    faults: u64,
}

impl<'a, R: Net + time::Clock> UdpLink<'a, R> {
    /// A link that isn't open yet.
    pub fn new(system: &'a R) -> UdpLink<'a, R> {
        UdpLink {
            system,
            socket: None,
            faults: 0,
        }
    }
}

impl<R: Net + time::Clock> Link for UdpLink<'_, R> {
    ghost is_open = { λ l. is_some l.socket };

    ghost traffic = { λ _. None };

    ghost faults = { λ l. l.faults };

    fn open(&mut self, port: u16) -> Result<(), Failed> {
        self.socket = bound(self.system, port);
        if self.socket.is_some() {
            return Ok(());
        }
        self.faults = self.faults.saturating_add(1);
        Err(Failed)
    }

    fn recv(&mut self, buf: &mut [u8]) -> Result<Option<Got>, Failed> {
        let taken = match &self.socket {
            Some(socket) => take_or_wait(self.system, socket, buf),
            None => Err(Failed),
        };
        if taken.is_err() {
            self.faults = self.faults.saturating_add(1);
        }
        taken
    }

    fn send(&mut self, _alloc: Global, to: Peer, octets: &[u8]) -> Result<(), PutFault> {
        let sent = match &self.socket {
            Some(socket) => send_once(self.system, socket, to, octets),
            None => Err(Failed),
        };
        match sent {
            Ok(()) => Ok(()),
            Err(Failed) => {
                self.faults = self.faults.saturating_add(1);
                Err(PutFault::Failed)
            }
        }
    }
}

/// A socket at a port of any of the machine's addresses, whose calls don't wait.
fn bound<R: Net>(system: &R, port: u16) -> Option<UdpSocket> {
    let socket = UdpSocket::bind(system, SocketAddrV4::new(Ipv4Addr::UNSPECIFIED, port)).ok()?;
    socket.set_nonblocking(true).ok()?;
    Some(socket)
}

/// Takes a datagram; where none has come, it waits once and tries again.
fn take_or_wait<C: time::Clock>(
    clock: &C,
    socket: &UdpSocket,
    buf: &mut [u8],
) -> Result<Option<Got>, Failed>
    ensures { IfOk result (λ taken. IfSome taken (λ got. got.len ≤ length buf.old)) }
{
    let taken = take_once(socket, buf)?;
    if taken.is_some() {
        return Ok(taken);
    }
    clock.sleep(Duration::from_micros(WAIT_MICROS));
    take_once(socket, buf)
}

/// Takes a datagram that has come, tried again where a signal interrupts it.
fn take_once(socket: &UdpSocket, buf: &mut [u8]) -> Result<Option<Got>, Failed>
    ensures { IfOk result (λ taken. IfSome taken (λ got. got.len ≤ length buf.old)) }
{
    for _ in 0..u64::MAX {
        match socket.recv_from(buf) {
            Ok((len, SocketAddr::V4(from))) => {
                let from = Peer {
                    addr: from.ip().to_bits(),
                    port: from.port(),
                };
                return Ok(Some(Got { len, from }));
            }
            Ok((_, SocketAddr::V6(_))) => return Err(Failed),
            Err(e) if e.kind() == ErrorKind::Interrupted => {}
            Err(e) if e.kind() == ErrorKind::WouldBlock => return Ok(None),
            Err(_) => return Err(Failed),
        }
    }
    Err(Failed)
}

/// Sends a datagram, tried again where a signal interrupts it, and some times where the system has no room for it yet.
fn send_once<C: time::Clock>(
    clock: &C,
    socket: &UdpSocket,
    to: Peer,
    octets: &[u8],
) -> Result<(), Failed> {
    let to = SocketAddrV4::new(Ipv4Addr::from_bits(to.addr), to.port);
    for _ in 0..TRIES {
        match socket.send_to(octets, to) {
            Ok(_) => return Ok(()),
            Err(e) if e.kind() == ErrorKind::Interrupted => {}
            Err(e) if e.kind() == ErrorKind::WouldBlock => clock.sleep(Duration::from_micros(
                WAIT_MICROS,
            )),
            Err(_) => return Err(Failed),
        }
    }
    Err(Failed)
}

/// The system's clock that never goes back. Where it can't be read, it stands still.
#[derive(Drop)]
pub struct StdClock<'a, R> {
    system: &'a R,
    last: u64,
}

impl<'a, R: time::Clock> StdClock<'a, R> {
    /// A clock that asks `system`.
    pub fn new(system: &'a R) -> StdClock<'a, R> {
        StdClock { system, last: 0 }
    }
}

impl<R: time::Clock> Clock for StdClock<'_, R> {
    ghost answers = { λ _. None };

    fn now(&mut self) -> u64 {
        if let Ok(time) = self.system.monotonic() {
            self.last = u64::try_from(time.as_millis()).unwrap_or(u64::MAX);
        }
        self.last
    }
}
