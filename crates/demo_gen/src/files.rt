//! The files of a demo session.

ghost use Rattle.std.specs.Prelude.{◌≡◌};

use edge_io::Octets;

/// A session to be run: a roster, and a capture of what the members of the roster send.
#[derive(Debug, Drop)]
pub struct Session {
    pub roster: Octets,
    pub dump: Octets,
}

/// The roster of every demo session.
pub(crate) const ROSTER: &[u8; 555] = b"\
0 join 1 pcmu:1001 16 97 2001 100 1000
0 join 2 pcma:1002 24 98 2002 200 2000
0 join 3 pcmu:1003 32 99 2003 300 3000
0 join 4 pcma:1004 40 96 2004 400 4000
0 join 5 pcmu:1005 16 97 2005 500 5000
0 join 6 pcma:1006 24 98 2006 600 6000
0 join 7 pcmu:1007 32 99 2007 700 7000
0 join 8 pcma:1008 40 96 2008 800 8000
2000 join 9 pcmu:1009 16 97 2009 900 9000
4000 join 10 pcma:1010 24 98 2010 1000 10000
6000 join 11 pcmu:1011 32 99 2011 1100 11000
8000 join 12 pcma:1012 40 96 2012 1200 12000
21000 leave 1
22000 leave 2
23000 leave 3
24000 leave 4
30000 end
";
