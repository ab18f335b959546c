ghost use Rattle.std.specs.Prelude.{◌≡◌};
ghost use Rattle.mea_crew_run.specs.Rounds.{is_held, is_lacking};

use mea_family::Answer;

/// Whether the answer is `some`. It takes no memory.
pub fn is_held(answer: &Answer) -> bool
    ensures { result ≡ is_held answer.now }
{
    matches!(answer, Answer::Held)
}

/// Whether the answer is `none`. It takes no memory.
pub fn is_lacking(answer: &Answer) -> bool
    ensures { result ≡ is_lacking answer.now }
{
    matches!(answer, Answer::Lacking)
}
