// Why a text is no workload.

/// Why a line of a text is refused. A line's first cause is the one that is looked for first: the shape
/// of the line, then its words from the left, then what their numbers name, then how many came before.
#[derive(Clone, Copy, Debug, PartialEq, Eq)]
pub enum WorkloadNo {
    /// The text has more than 1,048,576 bytes.
    Long,
    /// The line is empty, or has an empty word or a byte that no word has.
    Shape,
    /// The text does not begin with the word `volume`.
    Volume,
    /// There is no command of this name.
    Word,
    /// The number of arguments is not that of the command.
    Count,
    /// A word that should be a number is none.
    Number,
    /// A number is out of its range.
    Range,
    /// A host is to look at or recover itself.
    Own,
    /// The text has more than 16,384 commands.
    Many,
}

/// Why a text was not read.
#[derive(Clone, Copy, Debug, PartialEq, Eq)]
pub enum ParseNo {
    /// The first faulty line, counted from 1, and the first cause why it is refused. A text that is too
    /// long is refused at line 0.
    Refused { line: u32, cause: WorkloadNo },
    /// Memory was refused.
    NoMemory,
}
