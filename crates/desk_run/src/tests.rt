//! A Book as the conference of a session: what it hands out, and what it keeps over cuts.

use crate::{Audience, Conference};
use conference_spec::JoinSpec;
use g726_bits::Rate;
use std::test::Fail;
use talk_mix::Tick;
use tick_core::Book;

/// Silence at 32 kbit/s is 80 octets of ones from the encoder's start on, and whoever has left is sent nothing.
#[test]
fn one_listener_in_silence(rt: HostRuntime) -> Result<(), Fail> {
    let mut book = Book::new(rt.alloc());
    let spec = JoinSpec {
        member: 7,
        rate: Rate::R32,
        pt: 96,
        ssrc: 11,
        first_seq: 65535,
        first_stamp: 3,
        ticks: 1,
    };
    Audience::join(&mut book, spec)?;
    let heard = book.encode(rt.alloc(), Tick::empty())?;
    assert_eq!(rt; heard.len(), 1);
    assert_eq!(rt; heard[0].len(), 1);
    assert!(rt; heard[0].packet(0).payload.as_slice() == [255; 80].as_slice());
    Audience::leave(&mut book, 7);
    let left = book.encode(rt.alloc(), Tick::empty())?;
    assert_eq!(rt; left.len(), 1);
    assert!(rt; left[0].is_empty());
    Ok(())
}

/// What a listener is sent goes on over cuts: what no full packet has carried yet is kept, and so is the number of the next
/// packet.
#[test]
fn packets_over_two_cuts(rt: HostRuntime) -> Result<(), Fail> {
    let mut book = Book::new(rt.alloc());
    let spec = JoinSpec {
        member: 7,
        rate: Rate::R32,
        pt: 96,
        ssrc: 11,
        first_seq: 65535,
        first_stamp: 3,
        ticks: 2,
    };
    Audience::join(&mut book, spec)?;
    let first = book.encode(rt.alloc(), Tick::empty())?;
    assert_eq!(rt; first.len(), 1);
    assert!(rt; first[0].is_empty());
    Conference::cut(&mut book);
    let second = book.encode(rt.alloc(), Tick::empty())?;
    assert_eq!(rt; second.len(), 1);
    assert_eq!(rt; second[0].len(), 1);
    assert_eq!(rt; second[0].packet(0).head.seq, 65535);
    assert!(rt; second[0].packet(0).payload.as_slice() == [255; 160].as_slice());
    Conference::cut(&mut book);
    let third = book.encode(rt.alloc(), Tick::empty())?;
    assert_eq!(rt; third.len(), 1);
    assert!(rt; third[0].is_empty());
    Audience::leave(&mut book, 7);
    let left = book.encode(rt.alloc(), Tick::empty())?;
    assert_eq!(rt; left.len(), 1);
    assert_eq!(rt; left[0].len(), 1);
    assert_eq!(rt; left[0].packet(0).head.seq, 0);
    assert_eq!(rt; left[0].packet(0).head.stamp, 323);
    assert!(rt; left[0].packet(0).payload.as_slice() == [255; 80].as_slice());
    Ok(())
}
