/// Who makes the calls of a script, over things that are pure state.
pub trait Plays: Drop {
    /// A call.
    type Call: Copy;
    /// What a call replies.
    type Reply: Copy + PartialEq;

    /// What the call replies. None means want of memory, or a script that names what was never made.
    fn reply(&mut self, call: Self::Call) -> Option<Self::Reply>;
}

/// The place of the first call of a script that tells something else than what stands beside it.
pub fn differs_at<P: Plays>(mut player: P, script: &[(P::Call, P::Reply)]) -> Option<usize> {
    for (place, (call, told)) in script.iter().enumerate() {
        if player.reply(*call) != Some(*told) {
            return Some(place);
        }
    }
    None
}
