// A table in the memory of a plan.
use vol_base::Packed;
use vol_layout::Table;

/// A table as a host keeps it while it has the lock of the table's resource.
#[derive(Drop)]
pub struct Kept {
    pub which: Table,
    pub table: Packed<4>,
}
