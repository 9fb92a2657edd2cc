//! Wires that were popped and not taken go back in front of their lists.

ghost use Rattle.std.specs.Prelude.{◌≡◌, ◌≢◌, ◌<◌, ◌≤◌, ◌++◌, ◌∷◌, [], ℕ, Some, OnOk, IfOk, length};
ghost use Rattle.node_threads.specs.Works.{undelivered_from};
ghost use Rattle.node_threads.specs.Crew.{RowsOf, UndeliveredFit, list_of, undelivered_at};

use dsm_messages::Wire;
use std::alloc::AllocError;
use std::collections::VecDeque;

/// Puts a wire from node j in front of its list to node k.
fn put_front(
    lists: &mut Vec<Vec<VecDeque<Wire>>>,
    j: u8,
    k: usize,
    wire: Wire,
) -> Result<(), AllocError>
    requires { (j < length lists.old.items) × (k < length lists.old.items)
        × RowsOf (length lists.old.items) lists.old.items }
    ensures rows { OnOk result ((length lists.new.items ≡ length lists.old.items)
        × RowsOf (length lists.old.items) lists.new.items) }
    ensures here { OnOk result ((a : ℕ) → list_of lists.new.items a k
        ≡ undelivered_from a (Some (j, wire)) ++ list_of lists.old.items a k) }
    ensures other { OnOk result ((a b : ℕ) → b ≢ k
        → list_of lists.new.items a b ≡ list_of lists.old.items a b) }
{
    let row = &mut lists[usize::from(j)];
    row[k].push_front(wire)?;
    Ok(())
}

/// Puts an undelivered wire, where there is one, in front of its list.
fn put_undelivered(
    lists: &mut Vec<Vec<VecDeque<Wire>>>,
    k: usize,
    undelivered: Option<(u8, Wire)>,
) -> Result<(), AllocError>
    requires { (k < length lists.old.items) × RowsOf (length lists.old.items) lists.old.items
        × UndeliveredFit (length lists.old.items) (undelivered ∷ []) }
    ensures rows { OnOk result ((length lists.new.items ≡ length lists.old.items)
        × RowsOf (length lists.old.items) lists.new.items) }
    ensures here { OnOk result ((a : ℕ) → list_of lists.new.items a k
        ≡ undelivered_from a undelivered ++ list_of lists.old.items a k) }
    ensures other { OnOk result ((a b : ℕ) → b ≢ k
        → list_of lists.new.items a b ≡ list_of lists.old.items a b) }
{
    match undelivered {
        Some((j, wire)) => {
            put_front(lists, j, k, wire)?;
            Ok(())
        }
        None => Ok(()),
    }
}

/// Puts the undelivered wire of each node in front of the list that it came from.
pub fn put_all_undelivered(
    lists: Vec<Vec<VecDeque<Wire>>>,
    undelivered: Vec<Option<(u8, Wire)>>,
) -> Result<Vec<Vec<VecDeque<Wire>>>, AllocError>
    requires rows { RowsOf (length lists.items) lists.items }
    requires undelivered { (length undelivered.items ≤ length lists.items)
        × UndeliveredFit (length lists.items) undelivered.items }
    ensures lists { IfOk result (λ r. (a b : ℕ) → list_of r.items a b
        ≡ undelivered_from a (undelivered_at undelivered.items b) ++ list_of lists.items a b) }
    ensures rows { IfOk result (λ r. (length r.items ≡ length lists.items)
        × RowsOf (length lists.items) r.items) }
{
    let mut lists = lists;
    let mut undelivered = undelivered;
    let mut k = 0;
    'undelivered: while !undelivered.is_empty() {
        let next = undelivered.remove(0);
        put_undelivered(&mut lists, k, next)?;
        k += 1;
    }
    Ok(lists)
}
