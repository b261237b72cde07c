// A read hold of a file: taken, and given back.
ghost use Rattle.std.specs.Prelude.{◌≡◌, ◌≢◌, ◌<◌, ◌≤◌, IfErr, IfOk, IsSome, None, true};
ghost use Rattle.disk_locks.specs.Calls.{IsSound, ReleasesRead, TriesRead};
ghost use Rattle.disk_locks.specs.Consistent.{Consistent};
ghost use Rattle.disk_locks.specs.Others as locks';
ghost use Rattle.host_facts.specs.Others.{Others};
ghost use Rattle.lock_store.specs.Views.{host_at};
ghost use Rattle.plan_parts.specs.Holds.{CutsEach, GivesBack, HasGoneOn, IsReadTaking, IsReleasing, IsTrying, NotedTry, ReadsFile, ReleasesFile, TakesRead, alone_word};
ghost use Rattle.slot_lock_blocks.specs.declared.lock.LockWord.{LockWord};
ghost use Rattle.vol_base.specs.declared.command.Command.{Command};

use crate::lock_calls::{hoped_word, own_key, release_read, try_read};
use crate::readers::lowest_key;
use crate::taking::Taking;
use lock_store::{StepNo, Took};
use meta_world::MetaWorld;
use shared_disk::Device;
use slot_lock_blocks::LockWord;
use vol_base::{FileNo, HostNo, Key};

/// A try to be among a file's readers, or to be so no more: the word that is tried from, how many tries were made, and the lowest
/// other reader in the last word found that had one.
#[derive(Clone, Copy)]
pub struct ReadTry {
    pub from: LockWord,
    pub tries: u8,
    pub reader: Option<Key>,
}

impl ReadTry {
    /// The first try: from what the lock is hoped to have.
    pub fn new<D: Device>(world: &MetaWorld<D>, host: HostNo, file: FileNo) -> ReadTry
        requires host { host < world.now.locks.geometry.hosts }
        requires file { file < world.now.locks.geometry.files }
        requires joined { (host_at world.now.locks host).joined ≡ true }
        ensures { result ≡ record { from = alone_word world.now.locks host file; tries = 0; reader = None } }
    {
        ReadTry {
            from: hoped_word(world, host, file),
            tries: 0,
            reader: None,
        }
    }

    /// Tries to read the file.
    pub fn take<D: Device>(
        &self,
        world: &mut MetaWorld<D>,
        host: HostNo,
        file: FileNo,
    ) -> Result<Taking<ReadTry>, StepNo>
        requires host { host < world.old.locks.geometry.hosts }
        requires stands { IsReadTaking world.old host file self.now }
        ensures went { IfOk result (TakesRead host file world.old world.new self.now) }
        ensures cut { IfErr result (CutsEach (ReadsFile file) host world.old world.new (λ c. NotedTry c host world.old self.now)) }
        ensures others { Others host world.old world.new }
    {
        let own = own_key(world, host);
        match try_read(world, host, file, &self.from) {
            Ok(Took::Took) => Ok(Taking::Taken),
            Ok(Took::Found(word)) => Ok(self.found(own, word, 2)),
            Err(why) => Err(why),
        }
    }

    /// Tries to read the file no more.
    pub fn give_back<D: Device>(
        &self,
        world: &mut MetaWorld<D>,
        host: HostNo,
        file: FileNo,
    ) -> Result<Taking<ReadTry>, StepNo>
        requires host { host < world.old.locks.geometry.hosts }
        requires stands { IsReleasing world.old host file self.now }
        ensures went { IfOk result (GivesBack host file world.old world.new self.now) }
        ensures cut { IfErr result (CutsEach (ReleasesFile file) host world.old world.new (λ c. NotedTry c host world.old self.now)) }
        ensures others { Others host world.old world.new }
    {
        let own = own_key(world, host);
        match release_read(world, host, file, &self.from) {
            Ok(Took::Took) => Ok(Taking::Taken),
            Ok(Took::Found(word)) => Ok(self.found(own, word, 1)),
            Err(why) => Err(why),
        }
    }

    // Another word was found: it is tried from, but behind the last try.
    fn found(&self, own: Key, word: LockWord, last: u8) -> Taking<ReadTry>
        requires tries { self.now.tries ≤ last }
        requires last { last < 3 }
        requires met { self.now.tries ≡ last → IsSome self.now.reader }
        ensures { HasGoneOn own.0 self.now last word result }
    {
        if let LockWord::Held(key) = &word {
            return Taking::Busy(*key);
        }
        let reader = lowest_key(&word, own).or(self.reader);
        if self.tries == last {
            return Taking::Busy(reader.unwrap());
        }
        Taking::More(ReadTry {
            from: word,
            tries: self.tries + 1,
            reader,
        })
    }
}
