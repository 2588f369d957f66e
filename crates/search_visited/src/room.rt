//! How much memory searches may keep of what they refuted, and what is left of it.

ghost use Rattle.std.specs.Prelude.{◌≡◌, ◌+◌, ◌≤◌, IsTrue, vec_capacity, vec_len};

use std::alloc::Allocator;

/// How much memory a run may take for what its searches refuted and learned, in bytes: the memos of all searches that go on at a time, and what
/// they share. It counts what is allocated, before it is, with the block that a list or a table grows out of. What else a
/// search takes (its cursor, its frames) grows with the input alone, and is not counted.
pub const BOUND: usize = 1 << 30;

/// The fewest elements that a list is given memory for.
const FEWEST: usize = 16;

/// Takes so many bytes of what is left, if there are so many, and says whether it did.
pub fn take(room: &mut usize, size: usize) -> bool {
    if size <= *room {
        *room -= size;
        true
    } else {
        false
    }
}

/// Gives back so many bytes that were taken.
pub fn give_back(room: &mut usize, size: usize) {
    *room = room.saturating_add(size);
}

/// Whether there is memory for so many more elements after those of the list.
fn has_space<T, A: Allocator>(list: &Vec<T, A>, more: usize) -> bool
    ensures { IsTrue result → vec_len list.now + more ≤ vec_capacity list.now }
{
    more <= list.capacity() - list.len()
}

/// Has memory for so many more elements after those of the list, which take so many bytes each, if there is room and memory for it, and says
/// whether there is. What a growth takes is taken from the room.
pub fn reserve<T, A: Allocator>(
    room: &mut usize,
    list: &mut Vec<T, A>,
    more: usize,
    size: usize,
) -> bool
    ensures items { list.new.items ≡ list.old.items }
    ensures space { IsTrue result → vec_len list.new + more ≤ vec_capacity list.new }
{
    if has_space(list, more) {
        return true;
    }
    grow(room, list, more, size);
    has_space(list, more)
}

/// For how many elements a list grows, which has memory for so many, if there is room for enough of them: for twice as many, or
/// for those that there is room for. A growth by little is none, as each costs what a list is long.
fn grown(room: usize, size: usize, old: usize, wanted: usize) -> Option<usize> {
    let most = room.checked_div(size).unwrap_or(usize::MAX);
    let least = old.saturating_add(old / 4).max(wanted);
    if least > most {
        return None;
    }
    Some(old.saturating_mul(2).max(wanted).max(FEWEST).min(most))
}

/// Has the list grow, if there is room and memory for the new block beside the old one.
fn grow<T, A: Allocator>(room: &mut usize, list: &mut Vec<T, A>, more: usize, size: usize)
    ensures { list.new.items ≡ list.old.items }
{
    let old = list.capacity();
    let wanted = list.len().saturating_add(more);
    let Some(count) = grown(*room, size, old, wanted) else {
        return;
    };
    let block = count.saturating_mul(size);
    if !take(room, block) {
        return;
    }
    match list.reserve_exact(count.saturating_sub(list.len())) {
        Ok(()) => give_back(room, old.saturating_mul(size)),
        Err(_) => give_back(room, block),
    }
}
