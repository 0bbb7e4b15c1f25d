//! The form of a line.

use g726_bits::Rate;

/// The words of what a member sends.
#[derive(Clone, Copy)]
pub(crate) enum TalkWords<'a> {
    Mu {
        ssrc: &'a [u8],
    },
    A {
        ssrc: &'a [u8],
    },
    G726 {
        rate: Rate,
        pt: &'a [u8],
        ssrc: &'a [u8],
    },
}

/// The five words of what a member gets, and the sixth, if it is there.
#[derive(Clone, Copy)]
pub(crate) struct ListenWords<'a> {
    pub(crate) rate: &'a [u8],
    pub(crate) pt: &'a [u8],
    pub(crate) ssrc: &'a [u8],
    pub(crate) seq: &'a [u8],
    pub(crate) stamp: &'a [u8],
    pub(crate) bundle: Option<&'a [u8]>,
}

/// A line of one of the five forms, by its words.
#[derive(Clone, Copy)]
pub(crate) enum Line<'a> {
    End {
        time: &'a [u8],
    },
    Leave {
        time: &'a [u8],
        member: &'a [u8],
    },
    Join {
        time: &'a [u8],
        member: &'a [u8],
        talk: Option<TalkWords<'a>>,
        listen: Option<ListenWords<'a>>,
    },
}
