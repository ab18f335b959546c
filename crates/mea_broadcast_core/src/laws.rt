ghost use Rattle.std.specs.Prelude.{◌≡◌, ◌+◌, ◌-◌, ◌≤◌, ℕ, List, [], ◌∷◌, ◌++◌, length, slice_get};
ghost use Rattle.mea_broadcast_core.specs.Broadcast.{Broadcast, IsFresh, after_send, oldest};
ghost use Rattle.mea_broadcast_core.specs.Receives.{found, found_at};
ghost use Rattle.mea_broadcast_core.specs.Walks.{StandsFor, BroadcastRuns, Heard, Walks};

/// The ring stands for the list of all messages ever sent: it begins so and each send keeps it so. So the oldest kept
/// message is at the tail less the ring's size, or where the channel began, and at a cursor from there on stands the
/// message of that position, or none where the list ends.
pub fn the_ring_stands_for_all_messages<T, W>()
    ensures begins { (b : Broadcast T W) (start : ℕ) → IsFresh b start → StandsFor b start [] }
    ensures sends { (b : Broadcast T W) (start : ℕ) (all : List T) (v : T)
        → StandsFor b start all → StandsFor (after_send b v) start (all ++ v ∷ []) }
    ensures oldest { (b : Broadcast T W) (start : ℕ) (all : List T)
        → StandsFor b start all → oldest b ≡ start + (length all - b.size) }
    ensures finds { (b : Broadcast T W) (start : ℕ) (all : List T) (p : ℕ)
        → StandsFor b start all → oldest b ≤ p → found b p ≡ found_at (slice_get all (p - start)) }
{}

/// A receiver steps through what was sent without a gap or a repeat, over every list of calls, whoever makes them: each
/// message that it hears is that of its position, which then is one more, and a lag passes exactly as many as it tells.
/// Its cursor is never past the tail.
pub fn a_receiver_steps_through_what_was_sent<T: Clone, W>()
    ensures stands { (b b' : Broadcast T W) (p p' start : ℕ) (all sent : List T) (heard : List (Heard T))
        → BroadcastRuns T.is_clone T.is_infallible b p b' p' sent heard
        → StandsFor b start all → StandsFor b' start (all ++ sent) }
    ensures walks { (b b' : Broadcast T W) (p p' start : ℕ) (all sent : List T) (heard : List (Heard T))
        → BroadcastRuns T.is_clone T.is_infallible b p b' p' sent heard
        → StandsFor b start all → Walks T.is_clone start (all ++ sent) p heard p' }
    ensures within { (b b' : Broadcast T W) (p p' start : ℕ) (all sent : List T) (heard : List (Heard T))
        → BroadcastRuns T.is_clone T.is_infallible b p b' p' sent heard → StandsFor b start all → p ≤ b.tail → p' ≤ b'.tail }
{}
