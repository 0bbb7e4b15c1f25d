//! Who talks when.

ghost use Rattle.std.specs.Prelude.{◌≡◌, ◌≤◌, if◌then◌else◌};
ghost use Rattle.demo_gen.specs.Members.{talks as talks_then};

use rtp_head::Head;

/// How many members there are. They are numbered from 1.
pub(crate) const MEMBERS: u32 = 12;

/// How many ticks of 20 ms the session has.
pub(crate) const TICKS: u32 = 1500;

/// The members up to this one leave before the end.
const LAST_LEAVER: u32 = 4;

/// A tick and a member that talks in it.
#[derive(Clone, Copy)]
pub(crate) struct Turn {
    pub(crate) tick: u32,
    pub(crate) member: u32,
}

impl Turn {
    ghost use Rattle.std.specs.Prelude.{◌<◌, ◌≤◌};
    ghost use Rattle.demo_gen.specs.Turns.{head, copies};

    /// The head of the packet (RFC 3550, section 5.1). The marker is set where the member begins to talk.
    pub(crate) fn head(self) -> Head
        requires { (self.tick < TICKS) × (self.member ≤ MEMBERS) }
        ensures { result ≡ head self }
    {
        let Turn { tick, member } = self;
        Head {
            marker: tick == 0 || !talks(tick - 1, member),
            pt: if member % 2 == 1 { 0 } else { 8 },
            seq: tick as u16,
            stamp: 160 * tick,
            ssrc: 1000 + member,
        }
    }

    /// Whether the packet comes twice.
    pub(crate) fn comes_twice(self) -> bool
        ensures { copies self ≡ (if result then 2 else 1) }
    {
        self.tick % 50 == 7
    }
}

/// Whether a member talks in a tick.
pub(crate) fn talks(tick: u32, member: u32) -> bool
    requires { member ≤ MEMBERS }
    ensures { result ≡ talks_then tick member }
{
    let join_time = 2000 * member.saturating_sub(8);
    let leave_time = 20_000 + 1000 * member;
    let is_present = join_time / 20 <= tick && (member > LAST_LEAVER || tick < leave_time / 20);
    is_present && (tick / 25 + 5 * member) % 12 < 4
}
