// An emptied vector that a value may keep while threads share it, though its elements are not `Sync`.
ghost use Rattle.std.specs.Prelude.{◌≡◌, ◌≤◌, IfOk, length, vec_capacity};
ghost use Rattle.mg_turns.specs.Code.Stored.{Stored};

use atomic_table::{Refused, Table, TableRule};
use std::alloc::{AllocError, Global};

/// The rule of the table in which a room lies. The table's one slot has an empty vector with room for as many elements as the
/// key says.
pub struct Keeps;

impl<T> TableRule<Vec<T>, (), usize> for Keeps {
    ghost holds = { λ n. Stored (λ v. (length v.items ≡ 0) × (n ≤ vec_capacity v)) };

    ghost first = { λ _. tt };
}

/// An empty vector with room for a number of elements, in a table so that threads may share it.
#[derive(Drop)]
pub struct Room<T: Drop> {
    table: Table<Vec<T>, (), usize, Keeps, Global>,
    pub ghost sized: { table.shared.table_id.slots ≡ 1 },
}

impl<T: Drop> Room<T> {
    /// A room for `size` elements.
    pub fn new(alloc: Global, size: usize) -> Result<Room<T>, AllocError>
        ensures { IfOk result (λ r. r.table.shared.key ≡ size) }
    {
        let vector = Vec::with_capacity(alloc, size)?;
        let mut slots = match Vec::with_capacity(alloc, 1) {
            Ok(slots) => slots,
            Err(failed) => {
                vector.destroy_empty();
                return Err(failed);
            }
        };
        slots.push_reserved(vector);
        match Table::new(alloc, &[], slots, &size) {
            Ok((table, _seat)) => Ok(Room { table }),
            Err(Refused { slots }) => {
                let mut slots = slots;
                if let Some(vector) = slots.pop() {
                    vector.destroy_empty();
                }
                slots.destroy_empty();
                Err(AllocError)
            }
        }
    }

    /// The empty vector, with room for as many elements as were asked for.
    pub fn open(self) -> Vec<T>
        ensures empty { length result.items ≡ 0 }
        ensures room { self.table.shared.key ≤ vec_capacity result }
    {
        let Room { table } = self;
        let mut closed = table.close();
        let vector = closed.take(0);
        closed.free();
        vector
    }
}
