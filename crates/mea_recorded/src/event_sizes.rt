ghost use Rattle.std.specs.Prelude.{◌≡◌};
ghost use Rattle.mea_recorded.specs.Things.{makes, ends};
ghost use Rattle.mea_sem_model.specs.Waiters.{registers};

use mea_events::SemEvent;

/// Whether the event may make a future or a permit that is one more than before. It takes no memory.
pub fn makes(event: &SemEvent) -> bool
    ensures { result ≡ makes event.now }
{
    matches!(
        event,
        SemEvent::Try(..)
            | SemEvent::Tryo(..)
            | SemEvent::Acq(..)
            | SemEvent::Acqo(..)
            | SemEvent::Acqf(..)
            | SemEvent::Acqof(..)
            | SemEvent::Split(..)
    )
}

/// Whether the event ends a future or a permit. It takes no memory.
pub fn ends(event: &SemEvent) -> bool
    ensures { result ≡ ends event.now }
{
    matches!(
        event,
        SemEvent::End(_) | SemEvent::Lose(_) | SemEvent::Merge(..)
    )
}

/// Whether the event may make one more future wait. It takes no memory.
pub fn registers(event: &SemEvent) -> bool
    ensures { result ≡ registers event.now }
{
    matches!(event, SemEvent::Poll(..))
}
