/// What a line does to boxes and to option boxes. In each action `b` is the name of one.
#[derive(Clone, Copy)]
pub enum BoxAction {
    /// Makes one with this content.
    MakeBox(Option<u64>),
    /// Puts another content in, and tells the one before: `b`, content.
    Swap(u64, Option<u64>),
    /// Puts another content in: `b`, content.
    Store(u64, Option<u64>),
    /// Tells the content: `b`.
    Tell(u64),
    /// Tells the content, and the box is gone: `b`.
    TakeOut(u64),
    /// Drops one: `b`.
    DropBox(u64),
}
