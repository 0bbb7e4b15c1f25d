//! What the grammar of a packet comes to, in both directions.
ghost use Rattle.std.specs.Prelude.{◌≡◌, ◌<◌, ℕ, List, Ok, All};
ghost use Rattle.rtp_head.specs.declared.Parsed.{Parsed};
ghost use Rattle.rtp_head.specs.Rtp.{rtp};
ghost use Rattle.rtp_head.specs.Packet.{IsPacket, Packet, parsed_of, spelling};

/// What is parsed is spelled so: the octets are those of a packet, and its head and the range of its
/// payload are what was found.
pub fn parsed_is_spelled()
    ensures { (octets : List ℕ) (parsed : Parsed) → All (λ octet. octet < 256) octets → rtp octets ≡ Ok parsed →
        (packet : Packet) × IsPacket packet × (octets ≡ spelling packet) × (parsed ≡ parsed_of packet) }
{}

/// What is spelled so is parsed: every packet, with whatever sources, extension and padding.
pub fn spelled_is_parsed()
    ensures { (packet : Packet) → IsPacket packet → rtp (spelling packet) ≡ Ok (parsed_of packet) }
{}
