// What a fresh write leaves.
use plan_parts::Kept;
use vol_base::DataNo;

/// What the pointer named before a fresh data block.
#[derive(Drop)]
pub enum Old {
    /// Nothing.
    Hole,
    /// A shared data block of the fresh one's group.
    Same(DataNo),
    /// A shared data block of another group, which has this table.
    Other(DataNo, Kept),
}
