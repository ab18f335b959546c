ghost use Rattle.std.specs.Prelude.{◌≡◌};
ghost use Rattle.std.specs.Borrow.{sem};

/// The core of a box whose content is swapped whole. No call takes memory. It ports `mea::atomicbox::AtomicBox` as pure
/// state.
pub struct BoxCore<T> {
    content: Box<T>,
}

// Written out: a derived one is proved anew in each crate that hands a value of this type to a generic function.
impl<T: Drop> Drop for BoxCore<T> {
    fn drop(self) {
        let BoxCore { content: _ } = self;
    }
}

impl<T: Drop> BoxCore<T> {
    ghost use Rattle.mea_chan_core.specs.BoxLends.{lends_content};

    /// A box with this content.
    pub fn new(value: Box<T>) -> Self
        ensures { result.content ≡ value }
    {
        BoxCore { content: value }
    }

    /// Puts another content in, and hands out the one before.
    pub fn swap(&mut self, other: Box<T>) -> Box<T>
        ensures before { result ≡ self.old.content }
        ensures after { self.new.content ≡ other }
    {
        std::mem::replace(&mut self.content, other)
    }

    /// Puts another content in; the one before is dropped.
    pub fn store(&mut self, other: Box<T>)
        ensures { self.new.content ≡ other }
    {
        self.content = other;
    }

    /// Swaps the content with another box.
    pub fn swap_mut(&mut self, other: &mut Box<T>)
        ensures inside { self.new.content ≡ other.old }
        ensures outside { other.new ≡ self.old.content }
    {
        std::mem::swap(&mut self.content, other);
    }

    /// The content.
    pub fn into_inner(self) -> Box<T>
        ensures { result ≡ self.content }
    {
        let BoxCore { content } = self;
        content
    }

    /// The content.
    pub fn content(&self) -> &T
        ensures { result.now ≡ self.now.content.value }
    {
        &self.content
    }

    /// Lends the content.
    pub fn get_mut(&mut self) -> &mut T
        ensures* writes_back { sem 𝓛 (lends_content T.row self.entry result) }
        ensures value { result.now ≡ self.old.content.value }
    {
        &mut self.content
    }
}
