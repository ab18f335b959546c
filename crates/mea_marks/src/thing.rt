ghost use Rattle.std.specs.Prelude.{◌≡◌};
ghost use Rattle.mea_marks.specs.Rows.{same};

use crate::sort::Sort;

/// What has a row: its sort, and its name, which is the number of the event that made it.
#[derive(Clone, Copy)]
pub struct Thing {
    pub sort: Sort,
    pub name: u64,
}

/// Whether two things are one.
pub fn same(a: Thing, b: Thing) -> bool
    ensures { result ≡ same a b }
{
    a.sort.code() == b.sort.code() && a.name == b.name
}
