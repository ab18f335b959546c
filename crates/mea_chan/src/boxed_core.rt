ghost use Rattle.std.specs.Prelude.{◌≡◌, true, None, IsOk, IsSome, IfOk, OnErr};
ghost use Rattle.std.specs.Option.{option_map};

use mea_base::NoMemory;
use mea_chan_core::{BoxCore, OptionBoxCore};
use std::alloc::Global;

/// The core of a box as a hall uses it. Each kind is seen as one that may be empty.
pub trait BoxedCore: Drop {
    ghost use Rattle.std.specs.Prelude.{Bool, ℕ, Option};

    ghost content_of: { Self → Option ℕ };
    // Whether it never is empty.
    ghost is_full: { Bool };

    /// A box with this content.
    fn with_content(alloc: Global, content: Option<u64>) -> Result<Self, NoMemory>
        requires { is_full ≡ true → IsSome content }
        ensures content { IfOk result (λ core. content_of core ≡ content) };

    /// Puts another content in, and tells the one before. It takes memory for a value alone. On an error nothing has
    /// changed.
    fn swap(&mut self, alloc: Global, content: Option<u64>) -> Result<Option<u64>, NoMemory>
        requires { is_full ≡ true → IsSome content }
        ensures swapped { IfOk result (λ before. (before ≡ content_of self.old) × (content_of self.new ≡ content)) }
        ensures empty { content ≡ None → IsOk result }
        ensures err { OnErr result (content_of self.new ≡ content_of self.old) };

    /// Tells the content. It takes no memory.
    fn content(&self) -> Option<u64>
        ensures { result ≡ content_of self.now };

    /// The content, which leaves the box. It takes no memory.
    fn into_content(self) -> Option<u64>
        ensures { result ≡ content_of self };
}

impl BoxedCore for BoxCore<u64> {
    ghost use Rattle.std.specs.Prelude.{Some, true};

    ghost content_of = { λ b. Some b.content.value };

    ghost is_full = { true };

    fn with_content(alloc: Global, content: Option<u64>) -> Result<Self, NoMemory> {
        let Ok(boxed) = Box::new(alloc, content.unwrap()) else {
            return Err(NoMemory);
        };
        Ok(BoxCore::new(boxed))
    }

    fn swap(&mut self, alloc: Global, content: Option<u64>) -> Result<Option<u64>, NoMemory> {
        let Ok(boxed) = Box::new(alloc, content.unwrap()) else {
            return Err(NoMemory);
        };
        let before = BoxCore::swap(self, boxed);
        Ok(Some(*before))
    }

    fn content(&self) -> Option<u64> {
        Some(*BoxCore::content(self))
    }

    fn into_content(self) -> Option<u64> {
        Some(*self.into_inner())
    }
}

impl BoxedCore for OptionBoxCore<u64> {
    ghost use Rattle.std.specs.Prelude.{false};
    ghost use Rattle.std.specs.Option.{option_map};

    ghost content_of = { λ b. option_map (λ content. content.value) b.content };

    ghost is_full = { false };

    fn with_content(alloc: Global, content: Option<u64>) -> Result<Self, NoMemory> {
        let Some(value) = content else {
            return Ok(OptionBoxCore::none());
        };
        let Ok(boxed) = Box::new(alloc, value) else {
            return Err(NoMemory);
        };
        Ok(OptionBoxCore::new(Some(boxed)))
    }

    fn swap(&mut self, alloc: Global, content: Option<u64>) -> Result<Option<u64>, NoMemory> {
        let Some(value) = content else {
            return Ok(unboxed(self.take()));
        };
        let Ok(boxed) = Box::new(alloc, value) else {
            return Err(NoMemory);
        };
        Ok(unboxed(OptionBoxCore::swap(self, Some(boxed))))
    }

    fn content(&self) -> Option<u64> {
        match OptionBoxCore::content(self) {
            Some(value) => Some(*value),
            None => None,
        }
    }

    fn into_content(self) -> Option<u64> {
        unboxed(self.into_inner())
    }
}

fn unboxed(content: Option<Box<u64>>) -> Option<u64>
    ensures { result ≡ option_map (λ boxed. boxed.value) content }
{
    match content {
        Some(boxed) => Some(*boxed),
        None => None,
    }
}
