// Locks of files: read holds and write holds.
ghost use Rattle.std.specs.Prelude.{◌≡◌, ◌≢◌, ◌<◌, ℕ, List, false, slice_index, true};
ghost use Rattle.disk_locks.specs.Calls.{IsSound, ReleasesRead, TriesRead, TriesWrite, with_reader, without_reader};
ghost use Rattle.disk_locks.specs.Freeing.{HaveEnded, IsOpen};
ghost use Rattle.disk_locks.specs.Others.{Others};
ghost use Rattle.disk_locks.specs.Sure.{Sure};
ghost use Rattle.lock_store.specs.Memories.{holds, may_read, reads};
ghost use Rattle.lock_store.specs.Tries.{ConfirmsLock};
ghost use Rattle.lock_store.specs.Views.{host_at, key_at};
ghost use Rattle.slot_lock_blocks.specs.Keys.{IsKeyOf};
ghost use Rattle.slot_lock_blocks.specs.LockWords.{IsLockWord, lock_readers};

use crate::locks::Locks;
use lock_store::{Purpose, StepNo, Took};
use shared_disk::Device;
use slot_lock_blocks::{LockWord, Readers};
use vol_base::{FileNo, HostNo, Key};
use vol_layout::Resource;

impl<D: Device> Locks<D> {
    /// Tries to read a file, from a lock that nobody holds.
    pub fn try_read(&mut self, host: HostNo, file: FileNo, from: &LockWord) -> Result<Took, StepNo>
        requires host { host < self.old.geometry.hosts }
        requires file { file < self.old.geometry.files }
        requires joined { (host_at self.old host).joined ≡ true }
        requires out { holds (host_at self.old host) (Resource.File file) ≡ false }
        requires word { IsLockWord from.now }
        requires open { IsOpen from.now }
        ensures did { TriesRead self.old host file from.now result self.new }
        ensures sound { IsSound result self.old }
        ensures others { Others host self.old self.new }
    {
        let after = self.me(host).with_read(file, true);
        let key = self.key(host);
        let to = with_reader(from, host, key);
        let what = Resource::File(file);
        let tried = self
            .store
            .try_lock(host, key, what, Purpose::Read, from, &to, &after);
        self.store.known();
        tried
    }

    /// Tries to hold a file, from a lock that nobody holds and of whose readers none but the host itself reads any more.
    pub fn try_write(&mut self, host: HostNo, file: FileNo, from: &LockWord) -> Result<Took, StepNo>
        requires host { host < self.old.geometry.hosts }
        requires file { file < self.old.geometry.files }
        requires joined { (host_at self.old host).joined ≡ true }
        requires out { holds (host_at self.old host) (Resource.File file) ≡ false }
        requires word { IsLockWord from.now }
        requires open { IsOpen from.now }
        requires ended { Sure self.old host (λ image. HaveEnded self.old host from.now) }
        ensures did { TriesWrite self.old host file from.now result self.new }
        ensures sound { IsSound result self.old }
        ensures others { Others host self.old self.new }
    {
        let after = self.me(host).writing(file);
        let key = self.key(host);
        let to = LockWord::Held(key);
        let what = Resource::File(file);
        let tried = self
            .store
            .try_lock(host, key, what, Purpose::Write, from, &to, &after);
        self.store.known();
        tried
    }

    /// Tries to take the own key out of the lock of a file that the host reads.
    pub fn release_read(
        &mut self,
        host: HostNo,
        file: FileNo,
        from: &LockWord,
    ) -> Result<Took, StepNo>
        requires host { host < self.old.geometry.hosts }
        requires file { file < self.old.geometry.files }
        requires joined { (host_at self.old host).joined ≡ true }
        requires out { holds (host_at self.old host) (Resource.File file) ≡ false }
        requires reads { reads (host_at self.old host) (Resource.File file) ≡ true }
        requires word { IsLockWord from.now }
        requires open { IsOpen from.now }
        requires among { slice_index (lock_readers from.now) host ≡ key_at self.old host }
        ensures did { ReleasesRead self.old host file from.now result self.new }
        ensures sound { IsSound result self.old }
        ensures others { Others host self.old self.new }
    {
        let after = self.me(host).with_read(file, false);
        let key = self.key(host);
        let to = without_reader(from, host);
        let what = Resource::File(file);
        let tried = self
            .store
            .try_lock(host, key, what, Purpose::Release, from, &to, &after);
        self.store.known();
        tried
    }

    /// Reads the lock of a file that the host holds or reads, which shows that its key is still registered.
    pub fn confirm(&mut self, host: HostNo, file: FileNo) -> Result<(), StepNo>
        requires host { host < self.old.geometry.hosts }
        requires file { file < self.old.geometry.files }
        requires key { key_at self.old host ≢ 0 }
        requires may { may_read (host_at self.old host) (Resource.File file) ≡ true }
        ensures did { ConfirmsLock self.old host (Resource.File file) result self.new }
        ensures sound { IsSound result self.old }
        ensures others { Others host self.old self.new }
    {
        let key = self.key(host);
        let confirmed = self.store.confirm(host, key, Resource::File(file));
        self.store.known();
        confirmed
    }
}

// The lock with the host as a reader under this key.
fn with_reader(from: &LockWord, host: HostNo, key: Key) -> LockWord
    requires host { host < 16 }
    requires key { IsKeyOf host key.0 }
    ensures { result ≡ with_reader from.now host key.0 }
{
    let mut readers = readers_of(from);
    readers.set(host, Some(key));
    LockWord::Read(readers)
}

// The lock without the host as a reader: free where nobody is left.
fn without_reader(from: &LockWord, host: HostNo) -> LockWord
    requires { host < 16 }
    ensures { result ≡ without_reader from.now host }
{
    let mut readers = readers_of(from);
    readers.set(host, None);
    if readers.is_empty() {
        LockWord::Free
    } else {
        LockWord::Read(readers)
    }
}

fn readers_of(word: &LockWord) -> Readers
    ensures { result ≡ lock_readers word.now }
{
    match word {
        LockWord::Read(readers) => *readers,
        LockWord::Free | LockWord::Held(_) => Readers::none(),
    }
}
