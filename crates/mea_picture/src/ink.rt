ghost use Rattle.std.specs.Prelude.{◌≡◌};
ghost use Rattle.mea_picture.specs.Shapes.{ink_word, turn_of};

/// How a shape looks: its class in the style of the picture. A line ends with the sign of its class, if that has one.
#[derive(Clone, Copy)]
pub enum Ink {
    /// All of a column, for the pointer.
    Column,
    /// The line of a column.
    Guide,
    /// The text of a line, upwards.
    Line,
    /// The name of an object.
    ObjectName,
    /// The name of what waits.
    WaitName,
    /// The name of a row where it begins.
    NearName,
    /// From where a thing was made to where it ended.
    Span,
    /// It waits.
    Waiting,
    /// It was woken and not yet polled.
    Woken,
    /// How many permits are free.
    Free,
    /// Their number.
    FreeCount,
    /// An arrow.
    Arrow,
    /// A poll that was answered `pending`.
    Pending,
    /// A poll that got what it waited for.
    Ready,
    /// A poll that will not get it.
    Refused,
    /// An end.
    Ended,
    /// A wake of nobody.
    Stray,
    /// Where a script was refused or bad.
    Cause,
    /// Why.
    CauseWords,
}

impl Ink {
    /// The name of its class.
    #[tactic(auto, unfolding(crate::specs::Shapes::ink_word))]
    pub fn word(self) -> &'static [u8]
        ensures { result.now ≡ ink_word self }
    {
        match self {
            Ink::Column => b"column",
            Ink::Guide => b"guide",
            Ink::Line => b"line",
            Ink::ObjectName => b"object",
            Ink::WaitName => b"name",
            Ink::NearName => b"near",
            Ink::Span => b"span",
            Ink::Waiting => b"waiting",
            Ink::Woken => b"woken",
            Ink::Free => b"free",
            Ink::FreeCount => b"count",
            Ink::Arrow => b"arrow",
            Ink::Pending => b"pending",
            Ink::Ready => b"ready",
            Ink::Refused => b"refused",
            Ink::Ended => b"ended",
            Ink::Stray => b"stray",
            Ink::Cause => b"cause",
            Ink::CauseWords => b"why",
        }
    }

    /// How words of it are turned, up to their place.
    pub fn turn(self) -> &'static [u8]
        ensures { result.now ≡ turn_of self }
    {
        match self {
            Ink::Line => b"\" transform=\"matrix(0 -1 1 0",
            _ => b"\" transform=\"matrix(1 0 0 1",
        }
    }
}
