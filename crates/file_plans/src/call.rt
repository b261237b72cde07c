// What a plan is asked for.
ghost use Rattle.std.specs.Prelude.{◌≡◌, ℕ, IfSome, IsNone};
ghost use Rattle.file_plans.specs.Calls.{block_of, file_of, index_of, is_read, is_write, wants_write};
ghost use Rattle.plain_files.specs.Calls.{file_no};

use vol_base::{Block, FileNo, PlainCall};

/// A call on plain files, or the closing of a file.
#[derive(Clone, Copy, Debug, PartialEq, Eq)]
pub enum FileCall {
    Plain(PlainCall),
    Close(FileNo),
}

impl FileCall {
    /// The file that it is on.
    pub fn file(&self) -> FileNo
        ensures { result ≡ file_of self.now }
    {
        match self {
            FileCall::Close(file) => *file,
            FileCall::Plain(call) => file_no(call),
        }
    }

    /// The plain call; none where a file is to be closed.
    pub fn plain(&self) -> Option<&PlainCall>
        ensures some { IfSome result (λ call. self.now ≡ FileCall.Plain call.now) }
        ensures none { IsNone result → (f : ℕ) × (self.now ≡ FileCall.Close f) }
    {
        match self {
            FileCall::Plain(call) => Some(call),
            FileCall::Close(_) => None,
        }
    }

    /// Whether it only reads its file.
    pub fn is_read(&self) -> bool
        ensures { result ≡ is_read self.now }
    {
        match self {
            FileCall::Plain(PlainCall::Read(_, _)) => true,
            _ => false,
        }
    }

    /// Whether it writes a block.
    pub fn is_write(&self) -> bool
        ensures { result ≡ is_write self.now }
    {
        match self {
            FileCall::Plain(PlainCall::Write(_, _, _)) => true,
            _ => false,
        }
    }

    /// Whether it is to have its file alone.
    pub fn wants_write(&self) -> bool
        ensures { result ≡ wants_write self.now }
    {
        match self {
            FileCall::Plain(PlainCall::Read(_, _)) | FileCall::Close(_) => false,
            FileCall::Plain(_) => true,
        }
    }

    /// The index of the block that it reads, writes or punches; 0 where it is on no block.
    pub fn index(&self) -> u32
        ensures { result ≡ index_of self.now }
    {
        match self {
            FileCall::Plain(PlainCall::Write(_, index, _)) => *index,
            FileCall::Plain(PlainCall::Read(_, index) | PlainCall::Punch(_, index)) => *index,
            _ => 0,
        }
    }

    /// The block that it writes; zeros where it writes none.
    pub fn block(&self) -> Block
        ensures { result ≡ block_of self.now }
    {
        match self {
            FileCall::Plain(PlainCall::Write(_, _, block)) => *block,
            _ => Block::zeros(),
        }
    }
}

/// The file that a plain call is on.
pub fn file_no(call: &PlainCall) -> FileNo
    ensures { result ≡ file_no call.now }
{
    match *call {
        PlainCall::Create(file) | PlainCall::Remove(file) => file,
        PlainCall::Size(file, _) | PlainCall::Read(file, _) | PlainCall::Punch(file, _) => file,
        PlainCall::Write(file, _, _) => file,
    }
}
