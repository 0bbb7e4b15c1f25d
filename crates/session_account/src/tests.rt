//! The rows of a report.

use crate::{Form, Report, Runs, Streams, Visits, Voices};
use roster_text::{Law, read};
use session_spec::{Arrival, Summary};
use std::test::Fail;

/// A report of one talker, in both forms: of its two packets one was cut, and of the other a sample came too late.
#[test]
fn one_talker_in_both_forms(rt: HostRuntime) -> Result<(), Fail> {
    let alloc = rt.alloc();
    let roster = read(alloc, b"0 join 1 pcmu:5 -\n100 end\n")
        .ok()
        .ok_or("a lawful roster")?;
    let mut streams = Streams::new(alloc);
    let packet = b"\x80\x00\x00\x07\0\0\0\0\0\0\0\x05\x80\x80\x80\x80";
    streams.note(Some(Law::Mu), Arrival::Took { new: 3 }, 16, packet)?;
    streams.note(None, Arrival::Cut, 17, packet)?;
    let report = Report::of(
        Summary {
            ticks: 5,
            runs: 0,
            packets: 0,
            refused: 1,
        },
        streams,
        Voices::new(alloc, &roster)?,
        Visits::new(alloc).listeners(alloc)?,
        Runs::none(),
    );
    let table = report.text(alloc, Form::Table)?;
    assert!(rt;
        table.as_slice()
            == "session ticks 5 runs 0 packets 0 refused 1\n\
torn cut 1 short 0 version 0 sources 0 extension 0 padding 0\n\
heard none 0 one 0 two 0 three 0\n\
talker member 1 ssrc 5 heard 0\n\
stream ssrc 5 packets 1 missing 0 taken 1 octets 4 new 3 lost 1 restarted 0 late 0 early 0 unknown 0 other_type 0 empty 0 too_long 0 ragged 0\n\
rate rate 16 packets 0 runs 0 packets_per_100_runs 0\n\
rate rate 24 packets 0 runs 0 packets_per_100_runs 0\n\
rate rate 32 packets 0 runs 0 packets_per_100_runs 0\n\
rate rate 40 packets 0 runs 0 packets_per_100_runs 0\n"
                .as_bytes(),
        "the table"
    );
    let json = report.text(alloc, Form::Json)?;
    assert!(rt;
        json.as_slice()
            == "{\"session\":{\"ticks\":5,\"runs\":0,\"packets\":0,\"refused\":1},\n\
\"torn\":{\"cut\":1,\"short\":0,\"version\":0,\"sources\":0,\"extension\":0,\"padding\":0},\n\
\"heard\":{\"none\":0,\"one\":0,\"two\":0,\"three\":0},\n\
\"talker\":[{\"member\":1,\"ssrc\":5,\"heard\":0}],\n\
\"stream\":[{\"ssrc\":5,\"packets\":1,\"missing\":0,\"taken\":1,\"octets\":4,\"new\":3,\"lost\":1,\"restarted\":0,\"late\":0,\"early\":0,\"unknown\":0,\"other_type\":0,\"empty\":0,\"too_long\":0,\"ragged\":0}],\n\
\"listener\":[],\n\
\"rate\":[{\"rate\":16,\"packets\":0,\"runs\":0,\"packets_per_100_runs\":0},\n\
{\"rate\":24,\"packets\":0,\"runs\":0,\"packets_per_100_runs\":0},\n\
{\"rate\":32,\"packets\":0,\"runs\":0,\"packets_per_100_runs\":0},\n\
{\"rate\":40,\"packets\":0,\"runs\":0,\"packets_per_100_runs\":0}]}\n"
                .as_bytes(),
        "the document"
    );
    Ok(())
}
