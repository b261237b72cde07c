// The tables of files that a plan has read.
ghost use Rattle.std.specs.Prelude.{◌≡◌, ◌<◌, [], IfSome, IsNone, None, Some, length};
ghost use Rattle.share_plans.specs.ReadTables.{IsInserted, kept_in};
ghost use Rattle.std.specs.Option.{option_to_list};

use plan_parts::Kept;
use std::marker::Model;
use vol_base::Packed;
use vol_layout::Table;

/// At most four tables. It takes no memory.
#[derive(Drop)]
pub struct FileTables {
    first: Option<Kept>,
    second: Option<Kept>,
    third: Option<Kept>,
    fourth: Option<Kept>,
}

impl Model for FileTables {
    ghost use Rattle.std.specs.Prelude.{◌++◌, List};
    ghost use Rattle.std.specs.Option.{option_to_list};
    ghost use Rattle.plan_parts.specs.declared.kept.Kept.{Kept};

    ghost Value = { List Kept };

    ghost view = { λ t. option_to_list t.first ++ option_to_list t.second ++ option_to_list t.third ++ option_to_list t.fourth };
}

impl FileTables {
    /// No table.
    pub fn new() -> FileTables
        ensures { result ≡ [] }
    {
        FileTables {
            first: None,
            second: None,
            third: None,
            fourth: None,
        }
    }

    /// The table, where it was read.
    pub fn get(&self, which: Table) -> Option<&Packed<4>>
        ensures some { IfSome result (λ table. kept_in self.now which ≡ Some table.now) }
        ensures none { IsNone result → kept_in self.now which ≡ None }
    {
        if let Some(table) = table_of(&self.first, which) {
            return Some(table);
        }
        if let Some(table) = table_of(&self.second, which) {
            return Some(table);
        }
        if let Some(table) = table_of(&self.third, which) {
            return Some(table);
        }
        table_of(&self.fourth, which)
    }

    /// Adds a table.
    pub fn push(&mut self, kept: Kept)
        requires { length self.old < 4 }
        ensures { IsInserted kept self.old self.new }
    {
        if self.first.is_none() {
            self.first = Some(kept);
        } else if self.second.is_none() {
            self.second = Some(kept);
        } else if self.third.is_none() {
            self.third = Some(kept);
        } else {
            self.fourth = Some(kept);
        }
    }
}

// The table that is kept, where it is this one.
fn table_of(kept: &Option<Kept>, which: Table) -> Option<&Packed<4>>
    ensures some { IfSome result (λ table. kept_in (option_to_list kept.now) which ≡ Some table.now) }
    ensures none { IsNone result → kept_in (option_to_list kept.now) which ≡ None }
{
    match kept {
        Some(kept) => {
            if kept.which == which {
                Some(&kept.table)
            } else {
                None
            }
        }
        None => None,
    }
}
