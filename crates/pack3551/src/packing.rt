//! One code more in the octets of a frame.

ghost use Rattle.std.specs.Prelude.{◌≡◌, ◌<◌, ◌≤◌, ◌+◌, ◌-◌, ◌*◌, ◌/◌, ◌%◌, ◌^◌, length, slice_set, slice_index, if◌then◌else◌, nat_lt};
ghost use Rattle.std.specs.List.{All};
ghost use Rattle.pack3551.specs.Packs.{Packs};

/// Where the packing of a frame stands: the octets that are whole, and the bits that aren't yet.
#[derive(Clone, Copy)]
pub(crate) struct Packer {
    pub(crate) count: usize,
    pub(crate) value: u32,
    pub(crate) width: u32,
}

/// The bits so far with a code above them.
#[inline(always)]
fn joined(code: u8, value: u32, width: u32) -> u32
    requires code { code < 32 }
    requires value { value < 2 ^ width }
    requires width { width < 8 }
    ensures value { result ≡ value + code * 2 ^ width }
    ensures within { result < 4096 }
{
    value + (u32::from(code) << width)
}

/// One code more, with which at most one octet gets whole.
#[inline(always)]
fn add_code(bits: u32, code: u8, packer: Packer, octets: &mut [u8; 100]) -> Packer
    requires bits { bits ≤ 5 }
    requires code { code < 2 ^ bits }
    requires value { packer.value < 2 ^ packer.width }
    requires width { packer.width < 8 }
    requires room { packer.count < 100 }
    ensures octets { let value = packer.value + code * 2 ^ packer.width in
        octets.new ≡ (if nat_lt (packer.width + bits) 8 then octets.old else slice_set octets.old packer.count (value % 256)) }
    ensures packer { let value = packer.value + code * 2 ^ packer.width in
        let width = packer.width + bits in
        result ≡ (if nat_lt width 8 then record { count = packer.count; value = value; width = width } else record { count = packer.count + 1; value = value / 256; width = width - 8 }) }
{
    let value = joined(code, packer.value, packer.width);
    let width = packer.width + bits;
    if width < 8 {
        Packer {
            count: packer.count,
            value,
            width,
        }
    } else {
        octets[packer.count] = (value % 256) as u8;
        Packer {
            count: packer.count + 1,
            value: value / 256,
            width: width - 8,
        }
    }
}

/// Eight codes more of a frame, from the place `from` on.
#[inline(always)]
pub(crate) fn add_eight(
    bits: u32,
    codes: &[u8; 160],
    from: usize,
    packer: Packer,
    octets: &mut [u8; 100],
) -> Packer
    requires bits { bits ≤ 5 }
    requires codes { All (λ c. c < 2 ^ bits) codes.now }
    requires room { from ≤ 152 }
    requires before { Packs bits codes.now from octets.old packer.count packer.value packer.width }
    ensures { Packs bits codes.now (from + 8) octets.new result.count result.value result.width }
{
    let mut packer = packer;
    for k in 0..8usize {
        packer = add_code(bits, codes[from + k], packer, octets);
    }
    packer
}

/// Where the unpacking of a frame stands: the octets that were taken, and the bits of them that wait.
#[derive(Clone, Copy)]
pub(crate) struct Unpacker {
    pub(crate) taken: usize,
    pub(crate) value: u32,
    pub(crate) width: u32,
}

/// The bits that wait, with one octet more above them where they are fewer than a code's.
pub(crate) fn refill(bits: u32, octets: &[u8], unpacker: Unpacker) -> Unpacker
    requires bits { bits ≤ 5 }
    requires value { unpacker.value < 2 ^ unpacker.width }
    requires width { unpacker.width < 8 }
    requires room { unpacker.width < bits → unpacker.taken < length octets.now }
    ensures { result ≡ (if nat_lt unpacker.width bits then record { taken = unpacker.taken + 1; value = unpacker.value + slice_index octets.now unpacker.taken * 2 ^ unpacker.width; width = unpacker.width + 8 } else unpacker) }
{
    if unpacker.width < bits {
        Unpacker {
            taken: unpacker.taken + 1,
            value: unpacker.value + (u32::from(octets[unpacker.taken]) << unpacker.width),
            width: unpacker.width + 8,
        }
    } else {
        unpacker
    }
}

/// The lowest code of the bits that wait, and the bits above it.
pub(crate) fn split(bits: u32, full: Unpacker) -> (u8, Unpacker)
    requires bits { bits ≤ 5 }
    requires value { full.value < 2 ^ full.width }
    requires wide { bits ≤ full.width }
    ensures code { result.0 ≡ full.value % 2 ^ bits }
    ensures rest { result.1 ≡ record { taken = full.taken; value = full.value / 2 ^ bits; width = full.width - bits } }
{
    (
        (full.value % (1 << bits)) as u8,
        Unpacker {
            taken: full.taken,
            value: full.value >> bits,
            width: full.width - bits,
        },
    )
}
