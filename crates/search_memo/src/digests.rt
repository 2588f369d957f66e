//! A digest of the states of all objects, kept as blocks touch them.
//!
//! States of one digest are compared wherever it counts that they are the same. So nothing is promised of it, and only how
//! fast a search is depends on it.

use aud_object::{Block, Store};
use search_visited::{hash_of, spread};
use std::alloc::{Allocator, Global};

/// What an object adds to the digest of all, and whether a block touched it since.
#[derive(Clone, Copy)]
struct Share {
    digest: u64,
    is_touched: bool,
}

/// What the object adds where its state has the digest. As shares are added up, they must not grow evenly with the numbers.
fn share_of(object: usize, digest: u64) -> u64 {
    spread(hash_of(digest, object as u64))
}

/// The shares of all objects once a digest was asked for, which objects were touched since, and the sum of the shares.
#[derive(Drop)]
pub(crate) struct Digests<A: Allocator + Copy = Global> {
    shares: Vec<Share, A>,
    touched: Vec<usize, A>,
    sum: u64,
}

impl<A: Allocator + Copy> Digests<A> {
    /// Of nothing. It does not allocate.
    pub(crate) fn new(alloc: A) -> Digests<A> {
        Digests {
            shares: Vec::new(alloc),
            touched: Vec::new(alloc),
            sum: 0,
        }
    }

    /// The block ran, or was taken back.
    pub(crate) fn touch(&mut self, block: &Block<A>) {
        for execution in block.executions() {
            self.touch_object(execution.object as usize);
        }
    }

    /// The object's share is computed anew when a digest is asked for. Where that cannot be noted, all shares are.
    fn touch_object(&mut self, object: usize) {
        let Some(share) = self.shares.get_mut(object) else {
            return;
        };
        if share.is_touched {
            return;
        }
        share.is_touched = true;
        if self.touched.push(object).is_err() {
            self.forget();
        }
    }

    /// Forgets all shares, so that the next digest is computed anew.
    pub(crate) fn forget(&mut self) {
        self.shares.clear();
        self.touched.clear();
        self.sum = 0;
    }

    /// The digest of the store's states, if there is memory for the shares. It costs what was touched since the last one.
    pub(crate) fn all(&mut self, store: &Store<A>) -> Option<u64> {
        for object in self.shares.len()..store.len() {
            let share = Share {
                digest: 0,
                is_touched: false,
            };
            if self.shares.push(share).is_err() {
                return None;
            }
            self.share_anew(object, store);
        }
        for _ in 0..self.touched.len() {
            if let Some(object) = self.touched.pop() {
                self.share_anew(object, store);
            }
        }
        Some(self.sum)
    }

    /// The object's share is that of its state in the store.
    fn share_anew(&mut self, object: usize, store: &Store<A>) {
        let Some(digest) = store.digest(object) else {
            return;
        };
        let digest = share_of(object, digest);
        if let Some(share) = self.shares.get_mut(object) {
            self.sum = self.sum.wrapping_sub(share.digest).wrapping_add(digest);
            *share = Share {
                digest,
                is_touched: false,
            };
        }
    }
}
