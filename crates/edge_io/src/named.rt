//! The files of a shelf in memory.
ghost use Rattle.std.specs.Prelude.{◌≡◌, ◌∷◌};
ghost use Rattle.std.specs.Option.{option_map};
ghost use Rattle.edge_io.specs.Named.{content_among};

use crate::octet_list::Octets;

/// A name and its content.
#[derive(Debug, Drop)]
pub struct Named {
    pub name: Octets,
    pub content: Octets,
}

/// Lends the content of the first file with this name.
pub(crate) fn find<'f>(first: &'f Named, others: &'f [Named], name: &[u8]) -> Option<&'f Octets>
    ensures { option_map (λ content. content.now) result ≡ content_among (first.now ∷ others.now) name.now }
{
    if first.name.as_slice() == name {
        return Some(&first.content);
    }
    find_among(others, name)
}

/// The same among files in a list.
fn find_among<'f>(files: &'f [Named], name: &[u8]) -> Option<&'f Octets>
    ensures { option_map (λ content. content.now) result ≡ content_among files.now name.now }
{
    for i in 0..files.len() {
        if files[i].name.as_slice() == name {
            return Some(&files[i].content);
        }
    }
    None
}
