ghost use Rattle.std.specs.Prelude.{◌≡◌, Result};
ghost use Rattle.mea_sets.specs.Poll.{Poll};
ghost use Rattle.mea_once_core.specs.declared.cell_stage.CellStage.{CellStage};
ghost use Rattle.mea_once_core.specs.declared.cell_stage.CellStage.TheVariants as stages;

use crate::init::Init;
use crate::init_call::InitCall;
use mea_base::Poll;

/// How far a call by key is.
#[derive(Drop)]
pub enum KeyStage<K> {
    /// Never polled: it has the key.
    New { key: K },
    /// It is a caller of the entry with this number.
    Calls { number: usize },
    /// It is a caller of the entry with this number, whose cell its initialiser has filled: the clone of that
    /// value found no memory.
    Kept { number: usize },
    /// It was ready.
    Done,
}

/// The future of a computation by key: a key, an initialiser, and how far the call is. It belongs to the
/// map or group that has polled it.
///
/// It may be dropped without its ending call: its map then stays as it is. It ports the futures of
/// `mea::once::OnceMap::try_compute` and `mea::singleflight::Group::try_work`.
#[derive(Drop)]
pub struct KeyCall<K, I> {
    /// How far the call by key is.
    pub stage: KeyStage<K>,
    /// The initialiser, and how far the call of the entry's cell is.
    pub call: InitCall<I>,
}

impl<K, I> KeyCall<K, I> {
    /// A call that was never polled. It takes no memory.
    pub fn new(key: K, init: I) -> Self
        ensures { result ≡ record { stage = KeyStage.New key; call = record { init = init; stage = CellStage.New } } }
    {
        KeyCall {
            stage: KeyStage::New { key },
            call: InitCall::new(init),
        }
    }

    /// Polls the initialiser alone, and answers what that answers. It takes no memory.
    pub fn poll_alone<V, E, W>(&mut self, waker: W) -> Poll<Result<V, E>>
    where
        I: Init<V, E, W>,
        requires { I.may_poll self.old.call.init }
        ensures answers { I.answers self.old.call.init waker result self.new.call.init }
        ensures again { result ≡ Poll.Pending → I.may_poll self.new.call.init }
        ensures rest { self.new ≡ record self.old { call = record self.old.call { init = self.new.call.init } } }
    {
        self.call.init.poll(waker)
    }
}
