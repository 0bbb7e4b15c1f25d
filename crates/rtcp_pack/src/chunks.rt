//! The chunks of a source description (RFC 3550, section 6.5).
ghost use Rattle.std.specs.Prelude.{◌≡◌, ◌≤◌, ◌%◌, IfSome, length};
ghost use Rattle.rtcp_pack.specs.Chunks.{chunk_len as chunk_len_of, chunks_fit as all_chunks_fit};

/// Octets of the SSRC that a chunk begins with.
const SSRC_LEN: usize = 4;

/// The type that ends the items of a chunk.
const END: u8 = 0;

/// So many chunks stand at the front.
pub(crate) fn chunks_fit(count: u8, body: &[u8]) -> bool
    requires { length body.now % 4 ≡ 0 }
    ensures { result ≡ all_chunks_fit count body.now }
{
    let mut rest = body;
    let mut left = count;
    while left > 0 {
        let Some(len) = chunk_len(rest) else {
            return false;
        };
        rest = rest.split_at(len).1;
        left -= 1;
    }
    true
}

/// How many octets the chunk at the front has; `None` where it doesn't end within the octets.
fn chunk_len(body: &[u8]) -> Option<usize>
    requires { length body.now % 4 ≡ 0 }
    ensures len { result ≡ chunk_len_of body.now }
    ensures within { IfSome result (λ len. (len ≤ length body.now) × (len % 4 ≡ 0)) }
{
    let mut place = SSRC_LEN;
    while place < body.len() {
        if body[place] == END {
            return Some(4 * (place / 4 + 1));
        }
        if place + 1 == body.len() {
            return None;
        }
        place += 2 + usize::from(body[place + 1]);
    }
    None
}
