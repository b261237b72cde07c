// What a host knows of itself.
ghost use Rattle.std.specs.Prelude.{◌≡◌, ◌<◌, ◌≤◌, ◌+◌, ◌↔◌, ◌||◌, IfSome, IsTrue, false};
ghost use Rattle.lock_store.specs.Memories.{claim_of, dropped, entered, holds, index_of, key_of, left, may_read, reads, registered, with_beat, with_claim, with_hold, with_read, writing};
ghost use Rattle.vol_layout.specs.Ranges.{HasResource, IsGeometry};

use vol_base::{FileNo, HostNo, Key};
use vol_layout::Resource;

/// What a host has in memory: its key, whether it is joined and its beat, whether it has freed its own slot under this key,
/// the resources that it holds, the files that it reads, and for each slot the dead key of its claim, 0 for none.
#[derive(Clone, Copy)]
pub struct HostState {
    pub key: Option<Key>,
    pub beat: u64,
    pub joined: bool,
    pub freed: bool,
    pub held: [bool; 144],
    pub reading: [bool; 64],
    pub claims: [u64; 16],
}

// The number of a resource among all of a volume.
fn index(what: Resource) -> usize
    ensures { result ≡ index_of what }
{
    match what {
        Resource::File(file) => usize::from(file),
        Resource::Part(part) => 64 + usize::from(part),
        Resource::Group(group) => 80 + usize::from(group),
    }
}

impl HostState {
    /// A host without a key.
    #[tactic(auto, unfolding(crate::specs::Memories::dropped))]
    pub fn dropped() -> HostState
        ensures { result ≡ dropped }
    {
        HostState {
            key: None,
            beat: 0,
            joined: false,
            freed: false,
            held: [false; 144],
            reading: [false; 64],
            claims: [0; 16],
        }
    }

    /// A host that was just given a key.
    pub fn registered(key: Key) -> HostState
        ensures { result ≡ registered key }
    {
        let mut host = HostState::dropped();
        host.key = Some(key);
        host
    }

    /// The host's key as a number, 0 for none.
    pub fn number(&self) -> u64
        ensures { result ≡ key_of self.now }
    {
        self.key.map_or(0, |key| key.0)
    }

    /// Whether the host holds the resource.
    pub fn holds(&self, what: Resource) -> bool
        requires { index_of what < 144 }
        ensures { result ≡ holds self.now what }
    {
        self.held[index(what)]
    }

    /// Whether the host reads the resource, which only a file can be.
    pub fn reads(&self, what: Resource) -> bool
        ensures { result ≡ reads self.now what }
    {
        match what {
            Resource::File(file) => file < 64 && self.reading[usize::from(file)],
            Resource::Part(_) | Resource::Group(_) => false,
        }
    }

    /// The dead key that a claimed slot shows, 0 where the host has not claimed it.
    pub fn claim(&self, of: HostNo) -> u64
        requires { of < 16 }
        ensures { result ≡ claim_of self.now of }
    {
        self.claims[usize::from(of)]
    }

    /// The host with the resource held, or no more so.
    pub fn with_hold(&self, what: Resource, is: bool) -> HostState
        requires { index_of what < 144 }
        ensures { result ≡ with_hold what is self.now }
    {
        let mut host = *self;
        host.held[index(what)] = is;
        host
    }

    /// The host with the file read, or no more so.
    pub fn with_read(&self, file: FileNo, is: bool) -> HostState
        requires { file < 64 }
        ensures { result ≡ with_read file is self.now }
    {
        let mut host = *self;
        host.reading[usize::from(file)] = is;
        host
    }

    /// The host that turned its read hold of the file into a write hold.
    pub fn writing(&self, file: FileNo) -> HostState
        requires { file < 64 }
        ensures { result ≡ writing file self.now }
    {
        self.with_hold(Resource::File(file), true)
            .with_read(file, false)
    }

    /// The host with the slot claimed, which shows the dead key; 0 for no claim.
    pub fn with_claim(&self, of: HostNo, dead: u64) -> HostState
        requires { of < 16 }
        ensures { result ≡ with_claim of dead self.now }
    {
        let mut host = *self;
        host.claims[usize::from(of)] = dead;
        host
    }

    /// The host that entered its own slot.
    pub fn entered(&self, own: HostNo) -> HostState
        requires { own < 16 }
        ensures { result ≡ entered own self.now }
    {
        let mut host = self.with_claim(own, 0);
        host.beat = 0;
        host.joined = true;
        host
    }

    /// The host that showed this beat.
    pub fn with_beat(&self, beat: u64) -> HostState
        ensures { result ≡ with_beat beat self.now }
    {
        let mut host = *self;
        host.beat = beat;
        host
    }

    /// The host that freed its own slot.
    pub fn left(&self) -> HostState
        ensures { result ≡ left self.now }
    {
        let mut host = *self;
        host.joined = false;
        host.freed = true;
        host.held = [false; 144];
        host.reading = [false; 64];
        host
    }
}
