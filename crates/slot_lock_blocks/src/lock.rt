// The lock of a resource.
ghost use Rattle.std.specs.Prelude.{◌≡◌, ◌≢◌, ℕ, List, IfNone, IfSome};
ghost use Rattle.slot_lock_blocks.specs.ReaderKeys.{AreReaders, StandIn, nobody};
ghost use Rattle.slot_lock_blocks.specs.LockWords.{IsLockWord, SpellsLock, lock_bytes, lock_key, lock_readers, lock_state};
ghost use Rattle.slot_lock_blocks.specs.declared.lock.LockWord.{LockWord};

use crate::header::{header, key_at};
use crate::readers::Readers;
use vol_base::{Block, Key};

/// What a lock says: that nobody holds the resource, the key by which it is held, or who reads the
/// file that it guards.
#[derive(Clone, Copy, Debug, PartialEq, Eq)]
pub enum LockWord {
    Free,
    Held(Key),
    Read(Readers),
}

const MAGIC: [u8; 8] = *b"DEDELOCK";

/// The lock word that a block spells. It is `None` exactly where the block is not the one spelling of a
/// lock word in range.
pub fn read_lock(block: &Block) -> Option<LockWord>
    ensures spelled { IfSome result (λ word. SpellsLock block.now.0 word) }
    ensures only { (word : LockWord) → SpellsLock block.now.0 word → result ≡ Some word }
    ensures none { IfNone result ((word : LockWord) → SpellsLock block.now.0 word → ⊥) }
{
    let word = candidate(block)?;
    if write_lock(&word).same(block) {
        Some(word)
    } else {
        None
    }
}

/// The block of a lock word. Where the word is in range, this block alone reads as it.
pub fn write_lock(word: &LockWord) -> Block
    ensures bytes { result.0 ≡ lock_bytes word.now }
    ensures reads { IsLockWord word.now → SpellsLock result.0 word.now }
{
    let mut draft = header(&MAGIC, word.state(), word.key());
    draft.skip_to(64);
    word.readers().push_to(&mut draft);
    draft.finish()
}

// What the places of a lock's numbers hold: the lock word that the block spells, if any.
fn candidate(block: &Block) -> Option<LockWord>
    ensures range { IfSome result (λ word. IsLockWord word) }
    ensures spelled { (word : LockWord) → SpellsLock block.now.0 word → result ≡ Some word }
{
    match block.u32_at(8) {
        0 => Some(LockWord::Free),
        1 => Some(LockWord::Held(key_at(block, 16)?)),
        2 => Some(LockWord::Read(readers_in(block)?)),
        _ => None,
    }
}

// The readers of a lock that is read, which are not none.
fn readers_in(block: &Block) -> Option<Readers>
    ensures range { IfSome result (λ readers. AreReaders readers × (readers ≢ nobody)) }
    ensures stand { (readers : List ℕ) → AreReaders readers → StandIn block.now.0 readers → readers ≢ nobody → result ≡ Some readers }
{
    let readers = Readers::candidate(block);
    if readers.is_empty() {
        return None;
    }
    Some(readers)
}

impl LockWord {
    fn state(&self) -> u32
        ensures { result ≡ lock_state self.now }
    {
        match self {
            LockWord::Free => 0,
            LockWord::Held(_) => 1,
            LockWord::Read(_) => 2,
        }
    }

    fn key(&self) -> u64
        ensures { result ≡ lock_key self.now }
    {
        match self {
            LockWord::Held(key) => key.0,
            LockWord::Free | LockWord::Read(_) => 0,
        }
    }

    fn readers(&self) -> Readers
        ensures { result ≡ lock_readers self.now }
    {
        match self {
            LockWord::Read(readers) => *readers,
            LockWord::Free | LockWord::Held(_) => Readers::none(),
        }
    }
}
