//! What no contract says: that words are taken where there is memory, and how a line reads.

use crate::{add_number, decimal, lend, line, operand, place_line};
use edge_io::Words;
use std::test::Fail;

/// One plain word after the command is its operand; none, two, an empty one and one with a dash are not.
#[test]
fn one_plain_word_is_an_operand(rt: HostRuntime) -> Result<(), Fail> {
    let alloc = rt.alloc();
    let mut words = Words::new(alloc);
    words.push(alloc, "alone").ok().ok_or("no memory")?;
    words.push(alloc, "roster").ok().ok_or("no memory")?;
    let lent = lend(alloc, &words).ok().ok_or("no memory")?;
    let found = operand(alloc, lent.as_slice(), "alone");
    assert_eq!(rt; found.ok().ok_or("no operand")?, "roster");
    assert!(rt; operand(alloc, lent.as_slice(), "demo").is_err());
    assert!(rt; operand(alloc, ["alone"].as_slice(), "alone").is_err());
    for others in [["alone", ""], ["alone", "-r"]] {
        assert!(rt; operand(alloc, others.as_slice(), "alone").is_err());
    }
    assert!(rt; operand(alloc, ["alone", "a", "b"].as_slice(), "alone").is_err());
    Ok(())
}

/// A number has no leading zero and no sign, and is at most the greatest.
#[test]
fn numbers_without_a_leading_zero(rt: HostRuntime) {
    for (word, number) in [
        ("1", Some(1)),
        ("16", Some(16)),
        ("17", None),
        ("0", None),
        ("04", None),
        ("+4", None),
        ("", None),
        ("99999999999999999999", None),
    ] {
        assert_eq!(rt; decimal(word, 16), number, "{word}");
    }
}

/// Lines read as they are written in the documents.
#[test]
fn lines_are_put_together(rt: HostRuntime) {
    let mut summary = line("ticks ");
    add_number(&mut summary, "", 3);
    add_number(&mut summary, " runs ", 18_446_744_073_709_551_615);
    assert_eq!(rt; summary.as_str(), "ticks 3 runs 18446744073709551615");
    assert_eq!(rt;
        place_line("dump at ", 39, "torn head").as_str(),
        "dump at 39: torn head\n"
    );
}
