mod admission;
mod play;
mod tournament;
