use crate::cell_core::CellCore;

// A cell, how many callers it has, and its place in the table, if it has one.
pub struct Entry<V, W> {
    pub(crate) cell: CellCore<V, W>,
    pub(crate) callers: usize,
    pub(crate) place: Option<usize>,
}

// Written out: a derived one is proved anew in each crate that hands a value of this type to a generic function.
impl<V: Drop, W: Drop> Drop for Entry<V, W> {
    fn drop(self) {
        let Entry {
            cell: _,
            callers: _,
            place: _,
        } = self;
    }
}
