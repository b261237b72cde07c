// How much of a volume is used.

/// How much of a volume is used: the number of data blocks whose count is not 0, and the number of
/// pointers and slots that name a data block, those past a file's length included.
#[derive(Clone, Copy, Debug, PartialEq, Eq)]
pub struct Usage {
    pub used: u32,
    pub mapped: u32,
}

/// Why a survey of a volume gives no usage.
#[derive(Clone, Copy, Debug, PartialEq, Eq)]
pub enum SurveyNo {
    /// A call of the device failed.
    Failed,
    /// The device's counter is at its end, so it gives no key.
    NoKeys,
    /// The block at this place is not of its kind.
    Bad(u64),
    /// There was no memory for the survey.
    NoMemory,
}
