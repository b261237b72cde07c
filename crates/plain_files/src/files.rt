// Plain files, and the plain calls on them.
ghost use Rattle.std.specs.Prelude.{◌≡◌, ◌<◌, ◌≤◌, length, OnOk, OnErr, IfOk, IfSome};
ghost use Rattle.std.specs.Option.{option_copied};
ghost use Rattle.plain_files.specs.Plain.{file_of, no_files};
ghost use Rattle.plain_files.specs.Calls.{file_no, outcome, reply_of, after, Lengthens};

use crate::content::{Content, zero_block};
use std::alloc::Global;
use std::marker::Model;
use vol_base::{Block, FileNo, NoMemory, PlainCall, PlainReply};

/// The greatest length, in blocks, of the files that [`PlainFiles::new`] makes.
pub const DEFAULT_LIMIT: u32 = 1_008;

/// Plain files: for each file number nothing or a list of blocks of its own, no list longer than the
/// greatest length.
#[derive(Drop)]
pub struct PlainFiles {
    alloc: Global,
    limit: u32,
    files: Vec<Option<Content>>,
}

impl Model for PlainFiles {
    ghost use Rattle.plain_files.specs.Plain.{Plain, IsWithinLimit};

    ghost Value = { Plain };

    ghost view = { λ p. record { limit = p.limit; files = p.files.items } };

    ghost invariant = { λ p. IsWithinLimit (record { limit = p.limit; files = p.files.items }) };
}

impl PlainFiles {
    /// Plain files for the file numbers below `files`, of which none is there yet. The greatest length
    /// is 1,008 blocks.
    pub fn new(alloc: Global, files: u8) -> Result<PlainFiles, NoMemory>
        ensures { IfOk result (λ p. p ≡ no_files files DEFAULT_LIMIT) }
    {
        PlainFiles::with_limit(alloc, files, DEFAULT_LIMIT)
    }

    /// Plain files for the file numbers below `files`, of which none is there yet. The greatest length
    /// is `limit` blocks.
    pub fn with_limit(alloc: Global, files: u8, limit: u32) -> Result<PlainFiles, NoMemory>
        ensures { IfOk result (λ p. p ≡ no_files files limit) }
    {
        let mut table = Vec::with_capacity(alloc, usize::from(files))?;
        for _ in 0..files {
            table.push(None).map_err(|_| NoMemory)?;
        }
        Ok(PlainFiles {
            alloc,
            limit,
            files: table,
        })
    }

    /// Makes a plain call. Only a call that makes a file longer can be refused memory.
    #[tactic(auto, using(crate::specs::laws::CallLaws::kept_by_calls), unfolding(crate::specs::Calls::reply_of, crate::specs::Calls::after))]
    pub fn apply(&mut self, call: &PlainCall) -> Result<PlainReply, NoMemory>
        requires { file_no call.now < length self.old.files }
        ensures reply { IfOk result (λ reply. reply ≡ reply_of self.old call.now) }
        ensures state { OnOk result (self.new ≡ after self.old call.now) }
        ensures numbers { length self.new.files ≡ length self.old.files }
        ensures err { OnErr result (self.new ≡ self.old) }
        ensures memory { OnErr result (Lengthens self.old.limit call.now (file_of self.old (file_no call.now))) }
    {
        let slot = &mut self.files[usize::from(named_file(call))];
        apply_to(slot, call, self.limit, self.alloc)
    }

    /// The blocks of a file, or `None` where it is not there.
    pub fn file(&self, file: FileNo) -> Option<&[Block]>
        requires { file < length self.now.files }
        ensures value { option_copied result ≡ file_of self.now file }
        ensures limit { IfSome result (λ blocks. length blocks.now ≤ self.now.limit) }
    {
        match &self.files[usize::from(file)] {
            Some(content) => Some(content.as_slice()),
            None => None,
        }
    }
}

fn named_file(call: &PlainCall) -> FileNo
    ensures { result ≡ file_no call.now }
{
    match call {
        PlainCall::Create(file)
        | PlainCall::Size(file, _)
        | PlainCall::Write(file, _, _)
        | PlainCall::Read(file, _)
        | PlainCall::Punch(file, _)
        | PlainCall::Remove(file) => *file,
    }
}

/// Makes a call on its file, which is `None` where it is not there.
fn apply_to(
    file: &mut Option<Content>,
    call: &PlainCall,
    limit: u32,
    alloc: Global,
) -> Result<PlainReply, NoMemory>
    requires { IfSome file.old (λ blocks. length blocks ≤ limit) }
    ensures reply { IfOk result (λ reply. reply ≡ (outcome limit call.now file.old).0) }
    ensures state { OnOk result (file.new ≡ (outcome limit call.now file.old).1) }
    ensures err { OnErr result (file.new ≡ file.old) }
    ensures memory { OnErr result (Lengthens limit call.now file.old) }
    ensures limit { IfSome file.new (λ blocks. length blocks ≤ limit) }
{
    let Some(content) = file else {
        if let PlainCall::Create(_) = call {
            *file = Some(Content::empty(alloc));
            return Ok(PlainReply::Done);
        }
        return Ok(PlainReply::NoFile);
    };
    match call {
        PlainCall::Create(_) => Ok(PlainReply::Exists),
        PlainCall::Size(_, n) => {
            if *n > limit {
                return Ok(PlainReply::TooLong);
            }
            content.resize(*n)?;
            Ok(PlainReply::Done)
        }
        PlainCall::Write(_, index, block) => Ok(content.write(*index, block)),
        PlainCall::Read(_, index) => Ok(content.read(*index)),
        PlainCall::Punch(_, index) => Ok(content.write(*index, &zero_block())),
        PlainCall::Remove(_) => {
            *file = None;
            Ok(PlainReply::Done)
        }
    }
}
