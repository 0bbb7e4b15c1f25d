//! Laws over the definitions: each is the contract of a function that does nothing.

ghost use Rattle.std.specs.Prelude.{◌≡◌, ◌+◌, ◌*◌, ◌≤◌, ℕ, List, Option, ◌++◌, length};
ghost use Rattle.roster_text.specs.declared.commands.Timed.{Timed};
ghost use Rattle.udp_edge.specs.declared.peer.Peer.{Peer};
ghost use Rattle.conference_spec.specs.Coding.{Coder};
ghost use Rattle.conference_spec.specs.Feed.{Feed, closes};
ghost use Rattle.session_spec.specs.Events.{refused};
ghost use Rattle.session_spec.specs.Captured.{events_over};
ghost use Rattle.live_spec.specs.Heard.{Live, controls, live_events, recording};
ghost use Rattle.live_spec.specs.Letters.{letters_to};

/// What closed ticks send stays as it is, whatever comes after them.
pub fn letters_stay()
    ensures { (peer_of : ℕ → Option Peer) (coder : Coder) (k : ℕ) (since h : Feed) → k ≤ closes h →
        letters_to peer_of coder k (since ++ h) ≡ letters_to peer_of coder k h }
{}

/// A capture of a live session's arrivals, each at the beginning of the tick that it came in, is heard as the session was: its
/// events, and with them its packets, are the same.
pub fn recordings_are_heard_alike()
    ensures { (plan : List Timed) (live : Live) (ticks : ℕ) → events_over plan (recording live ticks) ticks ≡ live_events plan live ticks }
{}

/// A session of so many ticks refuses no more datagrams, with its packets of RTCP, than it has rounds: 65,536 in each tick.
pub fn datagrams_are_few()
    ensures { (plan : List Timed) (live : Live) (k : ℕ) → refused (live_events plan live k) + length (controls live k) ≤ 65536 * k }
{}
