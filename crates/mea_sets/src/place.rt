/// The number of a registration in a `WaitSet`: how many drains came before it, and its index in the
/// list. So no number comes twice.
#[derive(Clone, Copy, Debug, PartialEq, Eq)]
pub struct Place {
    pub drains: u128,
    pub index: usize,
}
