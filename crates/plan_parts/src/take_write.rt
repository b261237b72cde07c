// A write hold of a file.
ghost use Rattle.std.specs.Prelude.{◌≡◌, ◌≢◌, ◌<◌, ◌≤◌, ◌↔◌, IfErr, IfOk, IsTrue, slice_index, true};
ghost use Rattle.host_facts.specs.Others.{Others};
ghost use Rattle.lock_store.specs.Views.{host_at};
ghost use Rattle.plan_parts.specs.Holds.{CutsEach, HasChecked, HasMet, HasMetReaders, IsChecking, IsWriteTaking, NotedWrite, TakesWrite, WritesFile, alone_word};
ghost use Rattle.plan_parts.specs.OtherReaders.{IsOther};
ghost use Rattle.plan_parts.specs.declared.take_write.TakeWrite.{TakeWrite};
ghost use Rattle.slot_lock_blocks.specs.Slots.{slot_key};
ghost use Rattle.vol_base.specs.declared.command.Command.{Command};

use crate::lock_calls::{hoped_word, own_key, read_slot, try_write};
use crate::readers::{lowest_reader, next_other};
use crate::taking::Taking;
use lock_store::{StepNo, Took};
use meta_world::MetaWorld;
use shared_disk::Device;
use slot_lock_blocks::{LockWord, Readers, Slot};
use vol_base::{FileNo, HostNo, Key};

/// A write hold on its way.
#[derive(Clone, Copy)]
pub enum TakeWrite {
    /// The lock is tried from this word, behind so many tries.
    Try(LockWord, u8),
    /// These readers were found by the first try, and the slot of this one is read; the keys of the others before it have ended.
    Check(Readers, HostNo),
}

impl TakeWrite {
    /// The first try: from what the lock is hoped to have.
    pub fn new<D: Device>(world: &MetaWorld<D>, host: HostNo, file: FileNo) -> TakeWrite
        requires host { host < world.now.locks.geometry.hosts }
        requires file { file < world.now.locks.geometry.files }
        requires joined { (host_at world.now.locks host).joined ≡ true }
        ensures { result ≡ TakeWrite.Try (alone_word world.now.locks host file) 0 }
    {
        TakeWrite::Try(hoped_word(world, host, file), 0)
    }

    /// Tries the lock, or reads the slot of one reader.
    pub fn next<D: Device>(
        &self,
        world: &mut MetaWorld<D>,
        host: HostNo,
        file: FileNo,
    ) -> Result<Taking<TakeWrite>, StepNo>
        requires host { host < world.old.locks.geometry.hosts }
        requires stands { IsWriteTaking world.old host file self.now }
        ensures went { IfOk result (TakesWrite host file world.old world.new self.now) }
        ensures cut { IfErr result (CutsEach (WritesFile file) host world.old world.new (λ c. NotedWrite c host world.old self.now)) }
        ensures others { Others host world.old world.new }
    {
        let own = own_key(world, host);
        let hosts = world.locks().geometry().hosts;
        match self {
            TakeWrite::Try(from, tries) => match try_write(world, host, file, from) {
                Ok(Took::Took) => Ok(Taking::Taken),
                Ok(Took::Found(word)) => Ok(met(own, hosts, &word, *tries)),
                Err(why) => Err(why),
            },
            TakeWrite::Check(readers, at) => match read_slot(world, host, *at) {
                Ok(slot) => Ok(checked(own, hosts, readers, *at, &slot)),
                Err(why) => Err(why),
            },
        }
    }
}

// Another word was found: its holder is shown, a free one is tried from, and a read one is looked through.
fn met(own: Key, hosts: HostNo, word: &LockWord, tries: u8) -> Taking<TakeWrite>
    requires hosts { hosts ≤ 16 }
    requires tries { tries < 3 }
    ensures { HasMet own.0 hosts tries word.now result }
{
    match word {
        LockWord::Held(key) => Taking::Busy(*key),
        LockWord::Free => Taking::More(TakeWrite::Try(LockWord::Free, tries + 1)),
        LockWord::Read(readers) => met_readers(own, hosts, readers, tries),
    }
}

// Behind the first try the readers are checked; later another key among them is shown.
fn met_readers(own: Key, hosts: HostNo, readers: &Readers, tries: u8) -> Taking<TakeWrite>
    requires hosts { hosts ≤ 16 }
    requires tries { tries < 3 }
    ensures { HasMetReaders own.0 hosts tries readers.now result }
{
    if tries == 0 {
        return Taking::More(checking(own, hosts, readers, 0));
    }
    match lowest_reader(readers, own) {
        Some(key) => Taking::Busy(key),
        None => Taking::More(TakeWrite::Try(LockWord::Read(*readers), tries + 1)),
    }
}

// The slot of a reader was read: it shows the reader's key still, or the next reader is checked.
fn checked(own: Key, hosts: HostNo, readers: &Readers, at: HostNo, slot: &Slot) -> Taking<TakeWrite>
    requires hosts { hosts ≤ 16 }
    requires at { at < hosts }
    requires other { IsOther own.0 (slice_index readers.now at) }
    ensures { HasChecked own.0 hosts readers.now at slot.now result }
{
    let key = readers.get(at).unwrap();
    if shows(slot, key) {
        return Taking::Busy(key);
    }
    Taking::More(checking(own, hosts, readers, at + 1))
}

// Goes on to the next other reader, or tries from the word where none is left.
fn checking(own: Key, hosts: HostNo, readers: &Readers, from: HostNo) -> TakeWrite
    requires { hosts ≤ 16 }
    ensures { IsChecking own.0 hosts readers.now from result }
{
    match next_other(readers, own, from, hosts) {
        Some(at) => TakeWrite::Check(*readers, at),
        None => TakeWrite::Try(LockWord::Read(*readers), 1),
    }
}

// Whether a slot shows this key.
fn shows(slot: &Slot, key: Key) -> bool
    requires { key.0 ≢ 0 }
    ensures { IsTrue result ↔ (slot_key slot.now ≡ key.0) }
{
    match slot {
        Slot::Free => false,
        Slot::Live { key: shown, .. } | Slot::Recovering { key: shown, .. } => *shown == key,
    }
}
