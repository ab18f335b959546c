ghost use Rattle.std.specs.Prelude.{◌≡◌};
ghost use Rattle.mea_sem.specs.Grants.{is_forgotten};

/// What becomes of the permits that a future is granted.
#[derive(Clone, Copy)]
pub(crate) enum Grant {
    /// A permit holds them.
    Held,
    /// They are taken away for ever.
    Forgotten,
}

impl Grant {
    /// Whether they are taken away for ever.
    pub(crate) fn is_forgotten(self) -> bool
        ensures { result ≡ is_forgotten self }
    {
        match self {
            Grant::Held => false,
            Grant::Forgotten => true,
        }
    }
}
