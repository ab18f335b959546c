ghost use Rattle.std.specs.Prelude.{◌≡◌};
ghost use Rattle.mea_family.specs.Forms.{is_plain};

/// How a permit, a guard or a future stands to the thing that it is of.
#[derive(Clone, Copy, Debug, PartialEq, Eq)]
pub enum Form {
    /// It borrows the thing, which cannot be dropped while it lives.
    Plain,
    /// It owns a share of the thing, which lives as long as it does.
    Owned,
}

impl Form {
    /// Whether it borrows the thing.
    pub fn is_plain(self) -> bool
        ensures { result ≡ is_plain self }
    {
        match self {
            Form::Plain => true,
            Form::Owned => false,
        }
    }
}
