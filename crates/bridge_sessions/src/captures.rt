//! Captures of speech, octet by octet.

use std::alloc::{AllocError, Global};

/// The line and the file head of a capture, and of every answer.
pub(crate) const HEAD: &[u8; 39] = b"#!rtpplay1.0 0.0.0.0/0\n\0\0\0\0\0\0\0\0\0\0\0\0\0\0\0\0";

/// One talker with SSRC 5, and one listener, over three ticks.
pub(crate) const ONE_TALKER: &str = "0 join 1 pcmu:5 -\n0 join 2 - 32 96 7 0 0\n60 end\n";

/// The first packets of a talker in mu-law, each 20 ms at the loudest sample, and each arriving when its tick begins.
pub(crate) fn speech(alloc: Global, ssrc: u8, packets: u8) -> Result<Vec<u8>, AllocError> {
    let mut capture = Vec::from_slice(alloc, HEAD)?;
    for number in 0..packets {
        let tick = u32::from(number);
        capture.extend_from_slice(&[0, 180, 0, 172])?;
        capture.extend_from_slice(&(20 * tick).to_be_bytes())?;
        capture.extend_from_slice(&[0x80, 0, 0, number])?;
        capture.extend_from_slice(&(160 * tick).to_be_bytes())?;
        capture.extend_from_slice(&[0, 0, 0, ssrc])?;
        capture.extend_from_slice(&[0x80; 160])?;
    }
    Ok(capture)
}

/// The first packets of a talker of G.726 at 32 kbit/s, who sends silence in payload type 100; each arrives when its tick begins.
pub(crate) fn coded_silence(alloc: Global, ssrc: u8, packets: u8) -> Result<Vec<u8>, AllocError> {
    let mut capture = Vec::from_slice(alloc, HEAD)?;
    for number in 0..packets {
        let tick = u32::from(number);
        capture.extend_from_slice(&[0, 100, 0, 92])?;
        capture.extend_from_slice(&(20 * tick).to_be_bytes())?;
        capture.extend_from_slice(&[0x80, 100, 0, number])?;
        capture.extend_from_slice(&(160 * tick).to_be_bytes())?;
        capture.extend_from_slice(&[0, 0, 0, ssrc])?;
        capture.extend_from_slice(&[0xff; 80])?;
    }
    Ok(capture)
}

/// A capture of one record.
pub(crate) fn one_record(alloc: Global, record: &[u8]) -> Result<Vec<u8>, AllocError> {
    let mut capture = Vec::from_slice(alloc, HEAD)?;
    capture.extend_from_slice(record)?;
    Ok(capture)
}
