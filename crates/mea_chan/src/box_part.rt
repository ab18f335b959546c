ghost use Rattle.std.specs.Prelude.{◌≡◌, true, None, IsSome, IfOk, IfSome, OnErr, is_some, Some};
ghost use Rattle.std.specs.FinMap as map;
ghost use Rattle.mea_family.specs.Play.{content as content_told};
ghost use Rattle.mea_chan_model.specs.declared.box_action.BoxAction.TheVariants.{MakeBox, Swap, Store, Tell, TakeOut, DropBox};
ghost use Rattle.mea_chan_model.specs.Boxes.{is_box, box_cause};
ghost use Rattle.mea_chan.specs.Actions.{FitsBox, BoxActs};

use crate::boxed_core::BoxedCore;
use mea_base::NoMemory;
use mea_by_name::ByName;
use mea_chan_model::BoxAction;
use mea_family::{Reply, Stop, Word, unknown_unless};
use std::alloc::Global;
use std::marker::Model;

/// What a hall keeps of a box: its core.
#[derive(Drop)]
pub struct BoxEntry<C: BoxedCore> {
    core: C,
}

impl<C: BoxedCore> Model for BoxEntry<C> {
    ghost use Rattle.std.specs.Prelude.{Option, ℕ};

    ghost Value = { Option ℕ };

    ghost view = { λ e. C.content_of e.core };
}

impl<C: BoxedCore> BoxEntry<C> {
    fn new(alloc: Global, content: Option<u64>) -> Result<Self, NoMemory>
        requires { C.is_full ≡ true → IsSome content }
        ensures { IfOk result (λ entry. entry ≡ content) }
    {
        let Ok(core) = C::with_content(alloc, content) else {
            return Err(NoMemory);
        };
        Ok(BoxEntry { core })
    }

    fn core(&self) -> &C
        ensures { C.content_of result.now ≡ self.now }
    {
        &self.core
    }

    fn swap(&mut self, alloc: Global, content: Option<u64>) -> Result<Option<u64>, NoMemory>
        requires { C.is_full ≡ true → IsSome content }
        ensures swapped { IfOk result (λ before. (before ≡ self.old) × (self.new ≡ content)) }
        ensures empty { content ≡ None → OnErr result ⊥ }
        ensures err { OnErr result (self.new ≡ self.old) }
    {
        self.core.swap(alloc, content)
    }

    fn content(&self) -> Option<u64>
        ensures { result ≡ self.now }
    {
        self.core.content()
    }

    fn into_content(self) -> Option<u64>
        ensures { result ≡ self }
    {
        self.core.into_content()
    }
}

/// The boxes of one kind, each by the number of the event that made it. Each call costs a look-up by name.
#[derive(Drop)]
pub struct BoxPart<C: BoxedCore> {
    boxes: ByName<BoxEntry<C>>,
    alloc: Global,
}

impl<C: BoxedCore> Model for BoxPart<C> {
    ghost use Rattle.mea_chan_model.specs.Boxes.{Boxes, boxes_code};

    ghost Value = { Boxes };

    ghost coded = { boxes_code };

    ghost view = { λ a. a.boxes };
}

impl<C: BoxedCore> BoxPart<C> {
    /// No box. It takes no memory.
    pub fn new(alloc: Global) -> Self
        ensures { result ≡ map.empty }
    {
        BoxPart {
            boxes: ByName::new(alloc),
            alloc,
        }
    }

    /// The core of a box. It takes no memory.
    pub fn core(&self, b: u64) -> Option<&C>
        ensures there { is_some result ≡ is_box self.now b }
        ensures stands { IfSome result (λ core. map.get self.now b ≡ Some (C.content_of core.now)) }
    {
        let entry = self.boxes.get(b)?;
        Some(entry.core())
    }

    /// Why an action is refused; None where it is not. It takes no memory.
    pub fn cause(&self, action: BoxAction) -> Option<Stop>
        ensures { result ≡ box_cause self.now action }
    {
        match action {
            BoxAction::MakeBox(_) => None,
            BoxAction::Swap(b, _) | BoxAction::Store(b, _) => unknown_unless(self.boxes.has(b)),
            BoxAction::Tell(b) | BoxAction::TakeOut(b) | BoxAction::DropBox(b) => unknown_unless(
                self.boxes.has(b),
            ),
        }
    }

    /// Does an action, or finds why it is refused. On an error nothing has changed.
    pub fn act(&mut self, number: u64, action: BoxAction) -> Result<Reply, Stop>
        requires { C.is_full ≡ true → FitsBox action }
        ensures { BoxActs self.old number action result self.new }
    {
        match action {
            BoxAction::MakeBox(content) => self.make(number, content),
            BoxAction::Swap(b, content) => self.swap(number, b, content),
            BoxAction::Store(b, content) => self.store(number, b, content),
            BoxAction::Tell(b) => self.tell(number, b),
            BoxAction::TakeOut(b) => self.take(number, b),
            BoxAction::DropBox(b) => self.end(number, b),
        }
    }

    // Makes a box. On an error nothing has changed.
    fn make(&mut self, number: u64, content: Option<u64>) -> Result<Reply, Stop>
        requires { C.is_full ≡ true → IsSome content }
        ensures { BoxActs self.old number (MakeBox content) result self.new }
    {
        let Ok(entry) = BoxEntry::new(self.alloc, content) else {
            return Err(Stop::NoMemory);
        };
        let Ok(()) = self.boxes.insert(number, entry) else {
            return Err(Stop::NoMemory);
        };
        Ok(Reply(Word::Made))
    }

    // Puts another content in, and tells the one before. It takes memory for a value alone. On an error nothing has
    // changed.
    fn swap(&mut self, number: u64, b: u64, content: Option<u64>) -> Result<Reply, Stop>
        requires { C.is_full ≡ true → IsSome content }
        ensures { BoxActs self.old number (Swap b content) result self.new }
    {
        let Some(entry) = self.boxes.get_mut(b) else {
            return Err(Stop::Unknown);
        };
        let Ok(before) = entry.swap(self.alloc, content) else {
            return Err(Stop::NoMemory);
        };
        Ok(told(before))
    }

    // Puts another content in. It takes memory for a value alone. On an error nothing has changed.
    fn store(&mut self, number: u64, b: u64, content: Option<u64>) -> Result<Reply, Stop>
        requires { C.is_full ≡ true → IsSome content }
        ensures { BoxActs self.old number (Store b content) result self.new }
    {
        let Some(entry) = self.boxes.get_mut(b) else {
            return Err(Stop::Unknown);
        };
        let Ok(_) = entry.swap(self.alloc, content) else {
            return Err(Stop::NoMemory);
        };
        Ok(Reply(Word::Done))
    }

    // Tells the content. It takes no memory.
    fn tell(&mut self, number: u64, b: u64) -> Result<Reply, Stop>
        ensures { BoxActs self.old number (Tell b) result self.new }
    {
        let Some(entry) = self.boxes.get(b) else {
            return Err(Stop::Unknown);
        };
        Ok(told(entry.content()))
    }

    // Tells the content; the box is gone. It takes no memory.
    fn take(&mut self, number: u64, b: u64) -> Result<Reply, Stop>
        ensures { BoxActs self.old number (TakeOut b) result self.new }
    {
        let Some(entry) = self.boxes.take(b) else {
            return Err(Stop::Unknown);
        };
        Ok(told(entry.into_content()))
    }

    // Drops a box. It takes no memory.
    fn end(&mut self, number: u64, b: u64) -> Result<Reply, Stop>
        ensures { BoxActs self.old number (DropBox b) result self.new }
    {
        let Some(_entry) = self.boxes.take(b) else {
            return Err(Stop::Unknown);
        };
        Ok(Reply(Word::Done))
    }
}

fn told(content: Option<u64>) -> Reply
    ensures { result ≡ content_told content }
{
    match content {
        Some(value) => Reply(Word::Value(value)),
        None => Reply(Word::Lacking),
    }
}
