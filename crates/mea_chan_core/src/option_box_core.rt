ghost use Rattle.std.specs.Prelude.{◌≡◌, None};
ghost use Rattle.std.specs.Option.{option_map};
ghost use Rattle.std.specs.Borrow.{sem};

/// The core of a box that may be empty, and whose content is swapped whole. No call takes memory. It ports
/// `mea::atomicbox::AtomicOptionBox` as pure state.
pub struct OptionBoxCore<T> {
    content: Option<Box<T>>,
}

// Written out: a derived one is proved anew in each crate that hands a value of this type to a generic function.
impl<T: Drop> Drop for OptionBoxCore<T> {
    fn drop(self) {
        let OptionBoxCore { content: _ } = self;
    }
}

impl<T: Drop> OptionBoxCore<T> {
    ghost use Rattle.mea_chan_core.specs.OptionBoxLends.{lends_content};

    /// A box with this content, or without one.
    pub fn new(value: Option<Box<T>>) -> Self
        ensures { result.content ≡ value }
    {
        OptionBoxCore { content: value }
    }

    /// An empty box.
    pub fn none() -> Self
        ensures { result.content ≡ None }
    {
        OptionBoxCore { content: None }
    }

    /// Puts another content in, and hands out the one before.
    pub fn swap(&mut self, other: Option<Box<T>>) -> Option<Box<T>>
        ensures before { result ≡ self.old.content }
        ensures after { self.new.content ≡ other }
    {
        std::mem::replace(&mut self.content, other)
    }

    /// Puts another content in; the one before is dropped.
    pub fn store(&mut self, other: Option<Box<T>>)
        ensures { self.new.content ≡ other }
    {
        self.content = other;
    }

    /// Takes the content out, and leaves the box empty.
    pub fn take(&mut self) -> Option<Box<T>>
        ensures before { result ≡ self.old.content }
        ensures after { self.new.content ≡ None }
    {
        self.content.take()
    }

    /// Swaps the content with another.
    pub fn swap_mut(&mut self, other: &mut Option<Box<T>>)
        ensures inside { self.new.content ≡ other.old }
        ensures outside { other.new ≡ self.old.content }
    {
        std::mem::swap(&mut self.content, other);
    }

    /// The content, if there is one.
    pub fn into_inner(self) -> Option<Box<T>>
        ensures { result ≡ self.content }
    {
        let OptionBoxCore { content } = self;
        content
    }

    /// The content, if there is one.
    pub fn content(&self) -> Option<&T>
        ensures { option_map (λ lent. lent.now) result ≡ option_map (λ content. content.value) self.now.content }
    {
        match &self.content {
            Some(content) => Some(&**content),
            None => None,
        }
    }

    /// Lends the content, if there is one.
    pub fn get_mut(&mut self) -> Option<&mut T>
        ensures* writes_back { sem 𝓛 (lends_content T.row self.entry result) }
        ensures value { option_map (λ lent. lent.now) result ≡ option_map (λ content. content.value) self.old.content }
    {
        match &mut self.content {
            Some(content) => Some(&mut **content),
            None => None,
        }
    }
}
