ghost use Rattle.std.specs.Prelude.{◌≡◌};
ghost use Rattle.mea_picture.specs.Drawing.{draw_code};

use mea_script::Status;

/// How the drawing of a script ended.
#[derive(Clone, Copy, Debug, PartialEq, Eq)]
pub enum DrawStatus {
    /// The picture shows all that was played, which ended so; or there was a fault.
    Played(Status),
    /// There are more events or rows than are drawn. Nothing was written.
    TooGreat,
}

impl DrawStatus {
    /// The code with which the program ends. It takes no memory.
    pub fn code(&self) -> u8
        ensures { result ≡ draw_code self.now }
    {
        match self {
            DrawStatus::Played(status) => status.code(),
            DrawStatus::TooGreat => 8,
        }
    }
}
