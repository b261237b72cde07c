// The calls on the lock of a file, one at a time.
ghost use Rattle.std.specs.Prelude.{◌≡◌, ◌≢◌, ◌<◌, false, slice_index, true};
ghost use Rattle.disk_locks.specs.Calls.{IsSound, ReleasesRead, TriesRead, TriesWrite};
ghost use Rattle.disk_locks.specs.Consistent.{Consistent};
ghost use Rattle.disk_locks.specs.Freeing.{HaveEnded, IsOpen};
ghost use Rattle.disk_locks.specs.Others.{Others};
ghost use Rattle.disk_locks.specs.Sure.{Sure};
ghost use Rattle.lock_store.specs.Memories.{holds, reads};
ghost use Rattle.lock_store.specs.SlotTries.{ReadsSlot};
ghost use Rattle.lock_store.specs.Views.{host_at, key_at};
ghost use Rattle.plan_parts.specs.Holds.{alone_word};
ghost use Rattle.slot_lock_blocks.specs.LockWords.{IsLockWord, lock_readers};
ghost use Rattle.vol_layout.specs.declared.kind.Resource.{Resource};

use lock_store::{StepNo, Took};
use meta_world::MetaWorld;
use shared_disk::Device;
use slot_lock_blocks::{LockWord, Readers, Slot};
use vol_base::{FileNo, HostNo, Key};

/// The key of a host that is joined.
pub(crate) fn own_key<D: Device>(world: &MetaWorld<D>, host: HostNo) -> Key
    requires host { host < world.now.locks.geometry.hosts }
    requires joined { (host_at world.now.locks host).joined ≡ true }
    ensures key { key_at world.now.locks host ≡ result.0 }
    ensures consistent { Consistent world.now.locks }
{
    let _geometry = world.locks().geometry();
    world.locks().key_of(host).unwrap()
}

/// What the lock of a file is hoped to have: nothing, or the host's own key alone where it reads the file.
pub(crate) fn hoped_word<D: Device>(world: &MetaWorld<D>, host: HostNo, file: FileNo) -> LockWord
    requires host { host < world.now.locks.geometry.hosts }
    requires file { file < world.now.locks.geometry.files }
    requires joined { (host_at world.now.locks host).joined ≡ true }
    ensures { result ≡ alone_word world.now.locks host file }
{
    let own = own_key(world, host);
    if world.locks().reads(host, file) {
        let mut readers = Readers::none();
        readers.set(host, Some(own));
        LockWord::Read(readers)
    } else {
        LockWord::Free
    }
}

/// Tries to read a file.
pub(crate) fn try_read<D: Device>(
    world: &mut MetaWorld<D>,
    host: HostNo,
    file: FileNo,
    from: &LockWord,
) -> Result<Took, StepNo>
    requires host { host < world.old.locks.geometry.hosts }
    requires file { file < world.old.locks.geometry.files }
    requires joined { (host_at world.old.locks host).joined ≡ true }
    requires out { holds (host_at world.old.locks host) (Resource.File file) ≡ false }
    requires word { IsLockWord from.now }
    requires open { IsOpen from.now }
    ensures did { TriesRead world.old.locks host file from.now result world.new.locks }
    ensures sound { IsSound result world.old.locks }
    ensures others { Others host world.old.locks world.new.locks }
    ensures standing { world.new.standing ≡ world.old.standing }
    ensures consistent { Consistent world.new.locks }
{
    let done = world.locks_mut().try_read(host, file, from);
    let _geometry = world.locks().geometry();
    done
}

/// Tries to read a file no more.
pub(crate) fn release_read<D: Device>(
    world: &mut MetaWorld<D>,
    host: HostNo,
    file: FileNo,
    from: &LockWord,
) -> Result<Took, StepNo>
    requires host { host < world.old.locks.geometry.hosts }
    requires file { file < world.old.locks.geometry.files }
    requires joined { (host_at world.old.locks host).joined ≡ true }
    requires out { holds (host_at world.old.locks host) (Resource.File file) ≡ false }
    requires reads { reads (host_at world.old.locks host) (Resource.File file) ≡ true }
    requires word { IsLockWord from.now }
    requires open { IsOpen from.now }
    requires among { slice_index (lock_readers from.now) host ≡ key_at world.old.locks host }
    ensures did { ReleasesRead world.old.locks host file from.now result world.new.locks }
    ensures sound { IsSound result world.old.locks }
    ensures others { Others host world.old.locks world.new.locks }
    ensures standing { world.new.standing ≡ world.old.standing }
    ensures consistent { Consistent world.new.locks }
{
    let done = world.locks_mut().release_read(host, file, from);
    let _geometry = world.locks().geometry();
    done
}

/// Tries to hold a file.
pub(crate) fn try_write<D: Device>(
    world: &mut MetaWorld<D>,
    host: HostNo,
    file: FileNo,
    from: &LockWord,
) -> Result<Took, StepNo>
    requires host { host < world.old.locks.geometry.hosts }
    requires file { file < world.old.locks.geometry.files }
    requires joined { (host_at world.old.locks host).joined ≡ true }
    requires out { holds (host_at world.old.locks host) (Resource.File file) ≡ false }
    requires word { IsLockWord from.now }
    requires open { IsOpen from.now }
    requires ended { Sure world.old.locks host (λ image. HaveEnded world.old.locks host from.now) }
    ensures did { TriesWrite world.old.locks host file from.now result world.new.locks }
    ensures sound { IsSound result world.old.locks }
    ensures others { Others host world.old.locks world.new.locks }
    ensures standing { world.new.standing ≡ world.old.standing }
    ensures consistent { Consistent world.new.locks }
{
    let done = world.locks_mut().try_write(host, file, from);
    let _geometry = world.locks().geometry();
    done
}

/// Reads the slot of a host.
pub(crate) fn read_slot<D: Device>(
    world: &mut MetaWorld<D>,
    host: HostNo,
    of: HostNo,
) -> Result<Slot, StepNo>
    requires host { host < world.old.locks.geometry.hosts }
    requires key { key_at world.old.locks host ≢ 0 }
    requires of { of < world.old.locks.geometry.hosts }
    ensures did { ReadsSlot world.old.locks host of result world.new.locks }
    ensures sound { IsSound result world.old.locks }
    ensures others { Others host world.old.locks world.new.locks }
    ensures standing { world.new.standing ≡ world.old.standing }
    ensures consistent { Consistent world.new.locks }
{
    let seen = world.locks_mut().read_slot_of(host, of);
    let _geometry = world.locks().geometry();
    seen
}
