// The order of names: a struct name is found by halves, and a new one is put in its place.
ghost use Rattle.std.specs.Prelude.{◌≡◌, ◌&&◌, ◌+◌, ◌*◌, ◌≤◌, ltb, length, if◌then◌else◌};
ghost use Rattle.model.specs.Equality.{same_bytes};
ghost use Rattle.model.specs.Programs.{before};
ghost use Rattle.model.specs.Stores.{struct_word, order_word};
ghost use Rattle.model.specs.Orders.{name_in_order};
ghost use Rattle.laws_names.specs.Sorted.{Edge, moved_up, struct_put};

use crate::reads::{first, index, part, same_bytes, second};
use std::mem::swap;

// Whether one name stands before another: it is less at the first difference, or ends there. (A loop: the library's `<` says the same, and with
// it many struct names took half as long again to load.)
pub fn before(a: &[u8], b: &[u8]) -> bool
    ensures { result ≡ before a.now b.now }
{
    for i in 0..a.len() {
        if b.len() <= i {
            return false;
        }
        if a[i] != b[i] {
            return a[i] < b[i];
        }
    }
    a.len() < b.len()
}

// The word of the name that stands at i in the order of names.
pub fn in_order(structs: &[u64], i: usize) -> u64
    ensures { result ≡ struct_word structs.now (order_word structs.now i) }
{
    let number = index(second(structs, i));
    first(structs, number)
}

// The place of a name among n that stand in order, by halves: those below are before it. The library searches a slice of what it compares; here the order is
// numbers in words that the host lends, and the names lie elsewhere (there is no heap to lay them side by side).
pub fn spot(name: &[u8], n: usize, structs: &[u64], text: &[u8]) -> usize
    ensures { Edge n (name_in_order structs.now text.now) name.now result }
{
    let mut low = 0;
    let mut high = n;
    // What is left is halved, so this is no `for`.
    while low < high {
        let mid = low + (high - low) / 2;
        if before(part(text, in_order(structs, mid)), name) {
            low = mid + 1;
        } else {
            high = mid;
        }
    }
    low
}

// Whether the name stands at that place of n.
pub fn stands(name: &[u8], at: usize, n: usize, structs: &[u64], text: &[u8]) -> bool
    ensures { result ≡ (ltb at n && same_bytes name.now (name_in_order structs.now text.now at)) }
{
    at < n && same_bytes(name, part(text, in_order(structs, at)))
}

// A number put at a place of the order of n numbers: those behind it move up by one.
fn move_up(structs: &mut [u64], at: usize, n: usize, x: u64)
    requires { (at ≤ n) × (2 * n + 2 ≤ length structs.old) }
    ensures { structs.new ≡ moved_up n at x structs.old }
{
    let mut carry = x;
    for k in at..n {
        swap(&mut structs[2 * k + 1], &mut carry);
    }
    structs[2 * n + 1] = carry;
}

// Struct n: the word of its name behind the others, its number at a place of the order.
pub fn put_struct(structs: &mut [u64], at: usize, n: usize, word: u64)
    requires { (at ≤ n) × (2 * n + 2 ≤ length structs.old) }
    ensures { structs.new ≡ struct_put n at word structs.old }
{
    structs[2 * n] = word;
    move_up(structs, at, n, n as u64);
}
