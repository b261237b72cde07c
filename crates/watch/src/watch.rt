// The looks at each host's slot.
ghost use Rattle.std.specs.Prelude.{◌≡◌, ◌<◌, ◌↔◌, Option, None, IsTrue, option_map, slice_set};
ghost use Rattle.watch.specs.Looks.{IsLook, count_of, look_at, nothing};

use slot_lock_blocks::Slot;
use std::marker::Model;
use vol_base::HostNo;

/// A slot that is not free, and how often in a row it was seen so: at least once. The count stays at
/// `u32::MAX`.
#[derive(Clone, Copy, Debug, PartialEq, Eq)]
pub struct Look {
    pub slot: Slot,
    pub count: u32,
}

/// What a host remembers of the slots of the 16 hosts. A contract sees a list: for each host nothing,
/// or the look at its slot.
#[derive(Debug, Drop)]
pub struct Watch {
    looks: [Option<Look>; 16],
}

impl Model for Watch {
    ghost use Rattle.std.specs.Prelude.{◌≡◌, List, Option, length};
    ghost use Rattle.watch.specs.declared.watch.Look.{Look};

    ghost Value = { List (Option Look) };

    ghost view = { λ watch. watch.looks };

    ghost invariant = { λ watch. length watch.looks ≡ 16 };
}

impl Watch {
    /// Nothing is remembered.
    #[tactic(auto, unfolding(crate::specs::Looks::nothing))]
    pub fn new() -> Watch
        ensures { result ≡ nothing }
    {
        Watch { looks: [None; 16] }
    }

    /// Remembers the slot of a host as it was just seen, and answers how often in a row it was seen
    /// so. A free slot is forgotten, and the answer is 0.
    pub fn look(&mut self, of: HostNo, slot: &Slot) -> u32
        requires { of < 16 }
        ensures look { IsLook slot.now (look_at self.old of) (look_at self.new of) }
        ensures count { result ≡ count_of (look_at self.new of) }
        ensures others { self.new ≡ slice_set self.old of (look_at self.new of) }
    {
        let look = next_look(&self.looks[usize::from(of)], slot);
        self.looks[usize::from(of)] = look;
        count_of(&look)
    }

    /// How often in a row the host's slot was seen as it is remembered; 0 where nothing is.
    pub fn count(&self, of: HostNo) -> u32
        requires { of < 16 }
        ensures { result ≡ count_of (look_at self.now of) }
    {
        count_of(&self.looks[usize::from(of)])
    }

    /// The slot that is remembered of the host; `None` exactly where nothing is.
    pub fn seen(&self, of: HostNo) -> Option<Slot>
        requires { of < 16 }
        ensures { result ≡ option_map (λ look. look.slot) (look_at self.now of) }
    {
        self.looks[usize::from(of)].map(|look| look.slot)
    }

    /// Forgets what is remembered of the host.
    pub fn forget(&mut self, of: HostNo)
        requires { of < 16 }
        ensures { self.new ≡ slice_set self.old of None }
    {
        self.looks[usize::from(of)] = None;
    }
}

fn count_of(look: &Option<Look>) -> u32
    ensures { result ≡ count_of look.now }
{
    match look {
        Some(look) => look.count,
        None => 0,
    }
}

// What is remembered after a slot was seen.
fn next_look(before: &Option<Look>, slot: &Slot) -> Option<Look>
    ensures { IsLook slot.now before.now result }
{
    if let Slot::Free = slot {
        return None;
    }
    let count = match before {
        Some(look) if is_same(&look.slot, slot) => look.count.saturating_add(1),
        _ => 1,
    };
    Some(Look { slot: *slot, count })
}

fn is_same(a: &Slot, b: &Slot) -> bool
    ensures { IsTrue result ↔ (a.now ≡ b.now) }
{
    a == b
}
