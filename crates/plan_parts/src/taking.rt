// What one step towards a hold did.
use vol_base::Key;

/// What one step did that takes a hold, or gives one back: it goes on, the hold is as asked, or another host's key was shown.
#[derive(Clone, Copy)]
pub enum Taking<T> {
    More(T),
    Taken,
    Busy(Key),
}
