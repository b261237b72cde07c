// The tables that hosts keep between two commands.
ghost use Rattle.std.specs.Prelude.{IfOk};
ghost use Rattle.plan_tests.specs.Caches.{IsEmpty};
ghost use Rattle.vol_layout.specs.Ranges.{IsGeometry};

use held_cache::HeldCache;
use std::alloc::Global;
use vol_base::NoMemory;
use vol_layout::Geometry;

/// The tables of files that hosts 0, 1 and 2 keep, each in a cache of its own, as hosts on several machines do.
#[derive(Drop)]
pub struct Caches {
    pub zero: HeldCache,
    pub one: HeldCache,
    pub two: HeldCache,
}

impl Caches {
    /// Nothing is kept.
    pub fn new(alloc: Global, geometry: &Geometry) -> Result<Caches, NoMemory>
        requires { IsGeometry geometry.now }
        ensures zero { IfOk result (λ caches. IsEmpty geometry.now caches.zero) }
        ensures one { IfOk result (λ caches. IsEmpty geometry.now caches.one) }
        ensures two { IfOk result (λ caches. IsEmpty geometry.now caches.two) }
    {
        Ok(Caches {
            zero: HeldCache::new(alloc, geometry)?,
            one: HeldCache::new(alloc, geometry)?,
            two: HeldCache::new(alloc, geometry)?,
        })
    }
}
