use mea_family::Stop;

/// Where a script ended, as far as it is drawn.
#[derive(Clone, Copy)]
pub enum Ending {
    /// Behind its last line.
    Whole,
    /// The next line is refused for this cause.
    Stopped(Stop),
    /// The next line is no event line.
    Bad,
    /// There is more input than is read.
    Long,
    /// There are more events or rows than are drawn.
    TooGreat,
}
