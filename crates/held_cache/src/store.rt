// Places for tables, whose memory is reserved at once and not touched before a place is used.
ghost use Rattle.std.specs.Prelude.{◌≡◌, ◌<◌, ◌≤◌, IfOk, None, Some, length, replicate, slice_index_or, slice_set};
ghost use Rattle.std.specs.Option.{option_copied};
ghost use Rattle.held_cache.specs.Stored.{ClearsRange};

use std::alloc::{AllocError, Global};
use std::marker::Model;
use vol_base::Packed;

// Each place has a table or none. A contract sees the list of what the places have.
#[derive(Drop)]
pub struct TableStore {
    // For each place where its tables stand, once it had one.
    positions: Vec<Option<usize>>,
    // In the order in which their places had the first one.
    tables: Vec<Option<Packed<4>>>,
}

impl Model for TableStore {
    ghost use Rattle.std.specs.Prelude.{List, Option, vec_capacity};
    ghost use Rattle.vol_base.specs.Packing.{Packing};
    ghost use Rattle.held_cache.specs.Stored.{IsStored, stored};

    ghost Value = { List (Option Packing) };

    ghost view = { λ store. stored store.positions.items store.tables.items };

    ghost invariant = { λ store. IsStored store.positions.items store.tables.items (vec_capacity store.tables) };
}

impl TableStore {
    // So many places without a table.
    pub fn new(alloc: Global, places: usize) -> Result<TableStore, AllocError>
        ensures { IfOk result (λ store. store ≡ replicate places None) }
    {
        Ok(TableStore {
            positions: vec![in alloc; None; places]?,
            tables: Vec::with_capacity(alloc, places)?,
        })
    }

    pub fn get(&self, place: usize) -> Option<&Packed<4>>
        requires { place < length self.now }
        ensures { option_copied result ≡ slice_index_or self.now place None }
    {
        match self.positions[place] {
            Some(position) => self.tables[position].as_ref(),
            None => None,
        }
    }

    // Takes no memory.
    pub fn set(&mut self, place: usize, table: Packed<4>)
        requires { place < length self.old }
        ensures { self.new ≡ slice_set self.old place (Some table) }
    {
        match self.positions[place] {
            Some(position) => self.tables[position] = Some(table),
            None => {
                self.positions[place] = Some(self.tables.len());
                self.tables.push_reserved(Some(table));
            }
        }
    }

    pub fn clear(&mut self, place: usize)
        requires { place < length self.old }
        ensures { self.new ≡ slice_set self.old place None }
    {
        if let Some(position) = self.positions[place] {
            self.tables[position] = None;
        }
    }

    // Clears the places from `first` to before `end`.
    pub fn clear_range(&mut self, first: usize, end: usize)
        requires order { first ≤ end }
        requires within { end ≤ length self.old }
        ensures { ClearsRange self.old self.new first end }
    {
        for place in first..end {
            self.clear(place);
        }
    }
}
