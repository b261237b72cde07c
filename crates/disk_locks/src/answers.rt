// What a try of a part's or a group's lock answers.
use vol_base::Key;

/// How a try of the lock of a part or a group ended: the host holds it now, or the holder's key was found.
#[derive(Clone, Copy, Debug, PartialEq, Eq)]
pub enum Got {
    Got,
    Held(Key),
}
