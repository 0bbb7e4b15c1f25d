//! The reports that are sent: a sender report, a source description and, at the end, a goodbye.
ghost use Rattle.std.specs.Prelude.{◌≡◌, ◌≤◌, ◌+◌, ◌<◌, ◌^◌, ◌++◌, [], ◌∷◌, length, take, drop, if◌then◌else◌};
ghost use Rattle.arrayvec.specs.ArrayVec.{array_vec_len};
ghost use Rattle.byteorder.specs.Endian.{big_bytes};
ghost use Rattle.rtcp_pack.specs.Compound.{compound};
ghost use Rattle.rtcp_pack.specs.Reports.{description_of, goodbye as goodbye_octets, name as name_text, report_octets, sender_report as sender_report_octets};

use crate::packet::{GOODBYE, SENDER_REPORT, SOURCE_DESCRIPTION, VERSION};
use arrayvec::{ArrayString, ArrayVec};
use byteorder::{BigEndian, ByteOrder};
use itoa::Buffer;

/// The most octets of a report.
const REPORT_LEN: usize = 68;

/// The octets of a sender report without report blocks.
const SENDER_REPORT_LEN: usize = 28;

/// The most octets of a source description.
const DESCRIPTION_LEN: usize = 32;

/// The octets of a goodbye of one source.
const GOODBYE_LEN: usize = 8;

/// The most octets of a name.
const NAME_LEN: usize = 18;

/// CNAME, the item that names a source (RFC 3550, section 6.5.1).
const CNAME: u8 = 1;

/// What a sender tells a listener of its stream (RFC 3550, section 6.4.1).
#[derive(Clone, Copy, Debug, PartialEq, Eq)]
pub struct Report {
    /// The stream's SSRC.
    pub ssrc: u32,
    /// The RTP timestamp at the time of the report, in samples, modulo 2^32.
    pub stamp: u32,
    /// How many RTP packets were sent, modulo 2^32.
    pub packets: u32,
    /// How many octets of payload they had together, modulo 2^32.
    pub octets: u32,
    /// The member's number, which its CNAME tells: `mMEMBER@bridge`.
    pub member: u32,
    /// The stream ends, and a BYE follows.
    pub bye: bool,
}

/// Writes a report to the front, and answers how many octets it has: an SR without report blocks and without a
/// wallclock, an SDES with the member's CNAME, and a BYE if the stream ends (RFC 3550, sections 6.4.1, 6.5 and 6.6).
/// What stands behind it stays as it was.
pub fn write(report: &Report, out: &mut [u8; 68]) -> usize
    ensures octets { out.new ≡ report_octets report.now ++ drop result out.old }
    ensures len { result ≡ length (report_octets report.now) }
    ensures short { result ≤ 68 }
    ensures checked { compound (take result out.new) ≡ Ok (if report.now.bye then 3 else 2) }
{
    let octets = octets_of(*report);
    out[..octets.len()].copy_from_slice(&octets);
    octets.len()
}

/// The octets of a report.
#[tactic(auto, unfolding(crate::specs::Reports::report_octets))]
fn octets_of(report: Report) -> ArrayVec<u8, REPORT_LEN>
    ensures octets { result.items ≡ report_octets report }
    ensures fits { report.member < 2 ^ 32 }
{
    let name = name(report.member);
    let mut octets = ArrayVec::new();
    add(&mut octets, &sender_report(report));
    add(&mut octets, &description(report.ssrc, name.as_str()));
    if report.bye {
        add(&mut octets, &goodbye(report.ssrc));
    }
    octets
}

/// Puts octets behind those that stand there.
fn add<const N: usize>(octets: &mut ArrayVec<u8, N>, more: &[u8])
    requires { array_vec_len octets.old + length more.now ≤ N }
    ensures { octets.new.items ≡ octets.old.items ++ more.now }
{
    let _fits = octets.try_extend_from_slice(more);
}

/// The octets of a sender report.
fn sender_report(report: Report) -> [u8; 28]
    ensures { result ≡ sender_report_octets report }
{
    let mut octets = [0; SENDER_REPORT_LEN];
    octets[0] = VERSION << 6;
    octets[1] = SENDER_REPORT;
    BigEndian::write_u16(&mut octets[2..4], 6);
    BigEndian::write_u32(&mut octets[4..8], report.ssrc);
    BigEndian::write_u32(&mut octets[16..20], report.stamp);
    BigEndian::write_u32(&mut octets[20..24], report.packets);
    BigEndian::write_u32(&mut octets[24..], report.octets);
    octets
}

/// The octets of a source description with one chunk, which has this CNAME.
fn description(ssrc: u32, name: &str) -> ArrayVec<u8, DESCRIPTION_LEN>
    requires { length name.now ≤ NAME_LEN }
    ensures { result.items ≡ description_of ssrc name.now }
{
    let fill = 4 - (2 + name.len()) % 4;
    let words = (6 + name.len() + fill) / 4;
    let mut octets = ArrayVec::new();
    add(
        &mut octets,
        &description_head(ssrc, words as u16, name.len() as u8),
    );
    add(&mut octets, name.as_bytes());
    add(&mut octets, &[0; 4][..fill]);
    octets
}

/// What stands before the text of a source description: its head, the SSRC, and the item's type and length.
fn description_head(ssrc: u32, words: u16, text_len: u8) -> [u8; 10]
    ensures { result ≡ 129 ∷ 202 ∷ [] ++ big_bytes 2 words ++ big_bytes 4 ssrc ++ 1 ∷ text_len ∷ [] }
{
    let mut octets = [0; 10];
    octets[0] = (VERSION << 6) + 1;
    octets[1] = SOURCE_DESCRIPTION;
    BigEndian::write_u16(&mut octets[2..4], words);
    BigEndian::write_u32(&mut octets[4..8], ssrc);
    octets[8] = CNAME;
    octets[9] = text_len;
    octets
}

/// The CNAME of a member.
#[tactic(auto, unfolding(crate::specs::Reports::name))]
fn name(member: u32) -> ArrayString<NAME_LEN>
    ensures text { result.bytes ≡ name_text member }
    ensures short { length result.bytes ≤ NAME_LEN }
{
    let mut digits = Buffer::new();
    let mut text = ArrayString::new();
    text.push_str("m");
    text.push_str(digits.format(member));
    text.push_str("@bridge");
    text
}

/// The octets of a goodbye of one source, without a reason.
fn goodbye(ssrc: u32) -> [u8; 8]
    ensures { result ≡ goodbye_octets ssrc }
{
    let mut octets = [0; GOODBYE_LEN];
    octets[0] = (VERSION << 6) + 1;
    octets[1] = GOODBYE;
    BigEndian::write_u16(&mut octets[2..4], 1);
    BigEndian::write_u32(&mut octets[4..], ssrc);
    octets
}
