// A stack of bytes in fixed memory.
ghost use Rattle.std.specs.Prelude.{◌≡◌, true, ◌↔◌, ◌<◌, ◌≤◌, ℕ, List, [], ◌∷◌, length};
ghost use Rattle.words.specs.Stack.{newest_first};
ghost use Rattle.words.specs.Inner.Popped.{Popped};

use std::marker::Model;

// Room for N bytes, of which the first `count` are on the stack, the newest last. The count stands before them: 4,096 bytes behind the
// first, a processor that compares the low twelve bits of addresses would have each look at the count wait for the byte put there before.
#[derive(Drop)]
pub struct Stack<const N: usize> {
    count: usize,
    items: [u8; N],
}

impl<const N: usize> Model for Stack<N> {
    ghost Value = { List ℕ };

    ghost view = { λ s. newest_first s.items s.count };

    ghost invariant = { λ s. s.count ≤ N };
}

impl<const N: usize> Stack<N> {
    pub fn new() -> Self
        ensures { result ≡ [] }
    {
        Stack {
            items: [0; N],
            count: 0,
        }
    }

    pub fn len(&self) -> usize
        ensures { result ≡ length self.now }
    {
        self.count
    }

    pub fn is_empty(&self) -> bool
        ensures { (result ≡ true) ↔ (length self.now ≡ 0) }
    {
        self.count == 0
    }

    pub fn push(&mut self, b: u8)
        requires { length self.old < N }
        ensures { self.new ≡ b ∷ self.old }
    {
        self.items[self.count] = b;
        self.count += 1;
    }

    // The newest byte, which is then no longer there.
    pub fn pop(&mut self) -> Option<u8>
        ensures { Popped self.old result self.new }
    {
        if self.count == 0 {
            return None;
        }
        self.count -= 1;
        Some(self.items[self.count])
    }
}
