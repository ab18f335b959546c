ghost use Rattle.std.specs.Prelude.{◌≡◌, ◌≤◌, ◌++◌, List, [], length, option_to_list, true, false};
ghost use Rattle.mea_chan_core.specs.Channel.{Channel};
ghost use Rattle.mea_chan_core.specs.InOrder.{ChannelRuns, MailRuns, ShotRuns};
ghost use Rattle.mea_chan_core.specs.Mailbox.{Mailbox};
ghost use Rattle.mea_chan_core.specs.Oneshot.{Oneshot};
ghost use Rattle.mea_chan_core.specs.Woken.{Watch, Watched, EnoughWoken};

/// Messages in order, over every list of calls on a bounded channel: what was accepted is what was received, what fell
/// when the receiver ended, and what is queued, in this order. While the receiver lives nothing has fallen; once it has
/// ended nothing is queued, so that what was queued then is never received.
pub fn messages_are_in_order<T, W>()
    ensures order { (c : Channel T W) (accepted received fallen : List T) → ChannelRuns c accepted received fallen → accepted ≡ received ++ (fallen ++ c.queued) }
    ensures lives { (c : Channel T W) (accepted received fallen : List T) → ChannelRuns c accepted received fallen → c.ended ≡ false → fallen ≡ [] }
    ensures ended { (c : Channel T W) (accepted received fallen : List T) → ChannelRuns c accepted received fallen → c.ended ≡ true → c.queued ≡ [] }
{}

/// The same of an unbounded channel.
pub fn unbounded_messages_are_in_order<T, W>()
    ensures order { (m : Mailbox T W) (accepted received fallen : List T) → MailRuns m accepted received fallen → accepted ≡ received ++ (fallen ++ m.queued) }
    ensures lives { (m : Mailbox T W) (accepted received fallen : List T) → MailRuns m accepted received fallen → m.ended ≡ false → fallen ≡ [] }
    ensures ended { (m : Mailbox T W) (accepted received fallen : List T) → MailRuns m accepted received fallen → m.ended ≡ true → m.queued ≡ [] }
{}

/// The message of a oneshot is accepted at most once, and then it was received, or fell with the receiver, or is there.
pub fn a_oneshot_has_one_message<T, W>()
    ensures order { (o : Oneshot T W) (accepted received fallen : List T) → ShotRuns o accepted received fallen → accepted ≡ received ++ (fallen ++ option_to_list o.message) }
    ensures once { (o : Oneshot T W) (accepted received fallen : List T) → ShotRuns o accepted received fallen → length accepted ≤ 1 }
    ensures lives { (o : Oneshot T W) (accepted received fallen : List T) → ShotRuns o accepted received fallen → o.receiver ≡ true → fallen ≡ [] }
{}

/// Senders are woken, over every list of calls on a bounded channel: each pending send that was granted a place has had
/// the waker of its last poll woken since. While the receiver lives at least as many were granted as there are free
/// places, or all that are pending; after its end all were.
pub fn enough_senders_are_woken<T, W>()
    ensures { (c : Channel T W) (watch : Watch W) → Watched c watch → EnoughWoken c watch }
{}
