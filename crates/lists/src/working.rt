// A working list of at most 1,024 cells. One more is noted, and not kept.
ghost use Rattle.std.specs.Prelude.{◌≡◌, ◌≤◌, List, [], ◌∷◌, length, take, OnOk};
ghost use Rattle.index.specs.Closed.{Closed};
ghost use Rattle.index.specs.Test.{list_test};
ghost use Rattle.index.specs.Verdict.{Verdict};
ghost use Rattle.lists.specs.Working.{Grows, Holds, Working, kept};

use cell::Cell;
use index::{LeafFault, MOST_CELLS, check_list};
use std::marker::Model;

// The array and its count are a rule of the project: a list of a job is 1,024 records in place. A flag, since all that
// counts of more cells is that they came.
#[derive(Drop)]
pub struct WorkingList<K> {
    items: [K; MOST_CELLS],
    count: usize,
    overfull: bool,
}

impl<K> Model for WorkingList<K> {
    ghost Value = { Working K };

    ghost view = { λ w. record { cells = take w.count w.items; overfull = w.overfull } };

    ghost invariant = { λ w. (length w.items ≡ 1024) × (w.count ≤ 1024) };
}

impl<K: Copy> WorkingList<K> {
    // An empty list, over records that stand for nothing yet.
    pub fn new(blank: K) -> WorkingList<K>
        ensures { Holds result [] }
    {
        WorkingList {
            items: [blank; MOST_CELLS],
            count: 0,
            overfull: false,
        }
    }

    pub fn push(&mut self, cell: K)
        ensures { Grows self.old self.new (cell ∷ []) }
    {
        if self.count < MOST_CELLS {
            self.items[self.count] = cell;
            self.count += 1;
        } else {
            self.overfull = true;
        }
    }

    // The cells that are kept.
    pub fn cells(&self) -> &[K]
        ensures kept { result.now ≡ kept self.now }
        ensures whole { (cs : List K) → Holds self.now cs → length cs ≤ 1024 → result.now ≡ cs }
        ensures few { length result.now ≤ 1024 }
    {
        &self.items[..self.count]
    }
}

impl<K> WorkingList<K> {
    // Whether more than 1,024 cells came.
    pub fn is_overfull(&self) -> bool
        ensures { result ≡ self.now.overfull }
    {
        self.overfull
    }
}

// Whether the list is closed, or its first fault.
pub fn check_working<K: Cell>(list: &WorkingList<K>) -> Result<(), LeafFault>
    ensures is { (cs : List K) → Holds list.now cs → result ≡ list_test K.Cell.kind cs }
    ensures closed { (cs : List K) → Holds list.now cs → Verdict K.Cell.kind cs result }
    ensures kept { OnOk result (Closed K.Cell.kind (kept list.now)) }
{
    if list.is_overfull() {
        return Err(LeafFault::TooMany);
    }
    check_list(list.cells())
}
