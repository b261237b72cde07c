// The tables that are left to write, in order.
ghost use Rattle.std.specs.Prelude.{◌≡◌, ◌∷◌, ◌++◌, [], IfSome, IsNone};
ghost use Rattle.std.specs.Option.{option_to_list};

use crate::kept::Kept;
use std::marker::Model;

/// At most four tables, in order. It takes no memory.
#[derive(Drop)]
pub struct Kepts {
    first: Option<Kept>,
    second: Option<Kept>,
    third: Option<Kept>,
    fourth: Option<Kept>,
}

impl Model for Kepts {
    ghost use Rattle.std.specs.Prelude.{◌++◌, List};
    ghost use Rattle.std.specs.Option.{option_to_list};
    ghost use Rattle.plan_parts.specs.declared.kept.Kept.{Kept};

    ghost Value = { List Kept };

    ghost view = { λ k. option_to_list k.first ++ option_to_list k.second ++ option_to_list k.third ++ option_to_list k.fourth };
}

impl Kepts {
    /// These tables, in this order.
    pub fn new(
        first: Option<Kept>,
        second: Option<Kept>,
        third: Option<Kept>,
        fourth: Option<Kept>,
    ) -> Kepts
        ensures { result ≡ option_to_list first ++ option_to_list second ++ option_to_list third ++ option_to_list fourth }
    {
        Kepts {
            first,
            second,
            third,
            fourth,
        }
    }

    /// Takes the first table out.
    pub fn take(&mut self) -> Option<Kept>
        ensures some { IfSome result (λ kept. self.old ≡ kept ∷ self.new) }
        ensures none { IsNone result → (self.old ≡ []) }
    {
        if self.first.is_some() {
            return self.first.take();
        }
        if self.second.is_some() {
            return self.second.take();
        }
        if self.third.is_some() {
            return self.third.take();
        }
        self.fourth.take()
    }
}
