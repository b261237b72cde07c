// What a plan has at every step.
use crate::call::FileCall;
use plan_parts::{Outcome, Taken};
use vol_base::HostNo;

/// The host and its call, the parts and groups that it has locked, and what the call has come to.
#[derive(Drop)]
pub struct Core {
    pub host: HostNo,
    pub call: FileCall,
    pub taken: Taken,
    pub outcome: Outcome,
}
