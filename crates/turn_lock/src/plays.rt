// What each kind of atomic step tells the seat that makes it.
use crate::knowledge::Knows;
use atomic_table::{Join, Play, Split};
use vol_base::Counted;

pub struct Take;

impl<T: Counted> Play<Option<T>, Knows<T>> for Take {
    ghost use Rattle.turn_lock.specs.Steps.{Took};

    ghost then = { Took T.began T.listed };
}

pub struct Count;

impl<T> Play<Option<T>, Knows<T>> for Count {
    ghost use Rattle.turn_lock.specs.Steps.{Loaded};

    ghost then = { Loaded };
}

pub struct Raise;

impl<T> Play<Option<T>, Knows<T>> for Raise {
    ghost use Rattle.turn_lock.specs.Steps.{Raised};

    ghost then = { Raised };
}

pub struct Free;

impl<T> Play<Option<T>, Knows<T>> for Free {
    ghost use Rattle.turn_lock.specs.Steps.{Freed};

    ghost then = { Freed };
}

pub struct Deal;

impl<T> Split<Knows<T>> for Deal {
    ghost use Rattle.turn_lock.specs.Steps.{dealer, dealt};

    ghost left = { dealer };

    ghost right = { dealt };
}

pub struct Merge;

impl<T> Join<Knows<T>> for Merge {
    ghost use Rattle.turn_lock.specs.Steps.{together, spent};

    ghost both = { together };

    ghost spent = { spent };
}
