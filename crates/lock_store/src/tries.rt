// Tries and reads of locks.
ghost use Rattle.std.specs.Prelude.{◌≡◌, ◌<◌, ◌↔◌, IfNone, IfSome, IsTrue};
ghost use Rattle.lock_store.specs.Tries.{ConfirmsLock, FitsLock, IsLockBlock, MayFind, TriesLock, trier};
ghost use Rattle.lock_store.specs.Views.{host_at, key_at};
ghost use Rattle.slot_lock_blocks.specs.LockWords.{SpellsLock};
ghost use Rattle.vol_layout.specs.Ranges.{HasResource};

use crate::answers::{StepNo, Took};
use crate::host::HostState;
use crate::purpose::{Purpose, Trier};
use crate::store::Store;
use shared_disk::{Device, Tested};
use slot_lock_blocks::{LockWord, read_lock, write_lock};
use vol_base::{Block, HostNo, Key};
use vol_layout::{Kind, Resource};

impl<D: Device> Store<D> {
    /// Tries the lock of a resource from one word to another; `after` is what the host then has in memory. Another word is
    /// found where it may stand there; a block of another kind drops the host.
    pub fn try_lock(
        &mut self,
        host: HostNo,
        key: Key,
        what: Resource,
        purpose: Purpose,
        from: &LockWord,
        to: &LockWord,
        after: &HostState,
    ) -> Result<Took, StepNo>
        requires host { host < 16 }
        requires key { key_at self.old host ≡ key.0 }
        requires what { HasResource self.old.geometry what }
        ensures did { TriesLock self.old host what purpose (trier host (host_at self.old host) what) from.now to.now after.now result self.new }
    {
        let who = self.trier(host, key, what);
        let kind = Kind::Lock(what);
        match self.swap(host, key, kind, &write_lock(from), &write_lock(to), after) {
            Ok(Tested::Swapped) => Ok(Took::Took),
            Ok(Tested::Found(block)) => match found_word(&block, purpose, &who) {
                Some(word) => Ok(Took::Found(word)),
                None => Err(self.unfit(host, kind)),
            },
            Err(why) => Err(why),
        }
    }

    /// Reads the lock of a resource, which drops the host where the block is none.
    pub fn confirm(&mut self, host: HostNo, key: Key, what: Resource) -> Result<(), StepNo>
        requires host { host < 16 }
        requires key { key_at self.old host ≡ key.0 }
        requires what { HasResource self.old.geometry what }
        ensures did { ConfirmsLock self.old host what result self.new }
    {
        let kind = Kind::Lock(what);
        match self.read(host, key, kind) {
            Ok(block) => {
                if is_lock(&block) {
                    Ok(())
                } else {
                    Err(self.unfit(host, kind))
                }
            }
            Err(why) => Err(why),
        }
    }

    // Who tries the lock of a resource.
    fn trier(&self, host: HostNo, key: Key, what: Resource) -> Trier
        requires host { host < 16 }
        requires key { key_at self.now host ≡ key.0 }
        requires what { HasResource self.now.geometry what }
        ensures { result ≡ trier host (host_at self.now host) what }
    {
        Trier {
            host,
            key,
            reads: self.host(host).reads(what),
        }
    }
}

// The word that a block spells, where it may stand there; `None` exactly where the block is not of its kind.
fn found_word(block: &Block, purpose: Purpose, who: &Trier) -> Option<LockWord>
    requires { who.now.host < 16 }
    ensures spelled { IfSome result (λ word. SpellsLock block.now.0 word) }
    ensures found { IfSome result (λ word. MayFind purpose who.now word) }
    ensures none { IfNone result (FitsLock purpose who.now block.now.0 → ⊥) }
{
    let word = read_lock(block)?;
    if who.may_find(purpose, &word) {
        Some(word)
    } else {
        None
    }
}

// Whether the block spells a lock word.
fn is_lock(block: &Block) -> bool
    ensures { IsTrue result ↔ IsLockBlock block.now.0 }
{
    read_lock(block).is_some()
}
