//! The column of the names of agents.

ghost use Rattle.std.specs.Prelude.{◌≡◌, length, max};
ghost use Rattle.es_trace.specs.Columns.{widest};

use es_value::Name;

/// How wide the column of names is: as wide as the longest, and at least 1.
pub(crate) fn width_of(names: &[Name]) -> usize
    ensures { result ≡ widest 1 names.now }
{
    let mut width = 1;
    for name in names {
        width = wider(width, name.as_bytes());
    }
    width
}

fn wider(width: usize, name: &[u8]) -> usize
    ensures { result ≡ max width (length name.now) }
{
    if width < name.len() {
        name.len()
    } else {
        width
    }
}
