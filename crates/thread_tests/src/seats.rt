// One call of each function of the turn lock.
ghost use Rattle.std.specs.Prelude.{◌≡◌, false};
ghost use Rattle.vol_base.specs.Grows.{BeginsWith};
ghost use Rattle.turn_lock.specs.Views.{IsSeatOf};

use std::process::Abort;
use std::sync::Wait;
use turn_lock::{TurnLock, TurnSeat};
use vol_base::{Begun, Counted};

/// A list of numbers under a name.
#[derive(Drop)]
struct Pile {
    name: u8,
    items: Vec<u8>,
}

impl Begun for Pile {
    type Origin = u8;

    ghost began = { λ pile. pile.name };
}

impl Counted for Pile {
    type Entry = u8;

    ghost listed = { λ pile. pile.items.items };

    fn entries(&self) -> u64 {
        self.items.len() as u64
    }
}

trait Grow: Counted {
    // Without memory the value stays.
    fn add(&mut self, item: u8)
        ensures began { Self.began self.new ≡ Self.began self.old }
        ensures entries { BeginsWith (Self.listed self.old) (Self.listed self.new) };
}

impl Grow for Pile {
    fn add(&mut self, item: u8) {
        if self.items.reserve(1).is_ok() {
            self.items.push_reserved(item);
        }
    }
}

// Takes the value, and puts it back with the item added.
fn visit<T: Grow, R: Wait>(rt: &R, lock: &TurnLock<T>, seat: &mut TurnSeat<T>, item: u8)
    requires mine { IsSeatOf T.began lock.now seat.old }
    requires free { seat.old.has ≡ false }
    ensures mine { IsSeatOf T.began lock.now seat.new }
    ensures free { seat.new.has ≡ false }
{
    let mut value = lock.take(rt, seat);
    value.add(item);
    lock.put(seat, value);
}

#[test]
fn seats_see_what_others_left(rt: HostRuntime) {
    let pile = Pile {
        name: 7,
        items: Vec::new(rt.alloc()),
    };
    match TurnLock::new(rt.alloc(), pile, 2) {
        Ok((lock, mut seats)) => {
            let (first, second) = seats.split_at_mut(1);
            visit(&rt, &lock, &mut first[0], 5);
            assert_eq!(rt; (first[0].number(), first[0].entries()), (0, 1));
            assert_eq!(rt; (second[0].number(), second[0].entries()), (1, 0));
            visit(&rt, &lock, &mut second[0], 6);
            assert_eq!(rt; second[0].entries(), 2);
            let pile = lock.close(seats);
            assert_eq!(rt; pile.items.len(), 2);
        }
        Err(_) => panic!(rt; "there was memory"),
    }
}
