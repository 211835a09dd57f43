// A stack of numbers of a fixed size.

ghost use Rattle.std.specs.Prelude.{◌≡◌, ℕ, ◌<◌, ◌≤◌, List, [], ◌∷◌, length, MatchOption};
ghost use Rattle.graph_ranks.specs.Held.{held};

use std::marker::Model;

/// A stack of at most `N` numbers. The library's `ArrayVec` has its top last, where every definition of a way or a search begins with it.
#[derive(Drop)]
pub struct Stack<const N: usize> {
    items: [u16; N],
    depth: usize,
}

// Clauses see the numbers, the top first.
impl<const N: usize> Model for Stack<N> {
    ghost Value = { List ℕ };

    ghost view = { λ s. held s.items s.depth };

    ghost invariant = { λ s. s.depth ≤ N };
}

impl<const N: usize> Stack<N> {
    pub fn new() -> Self
        ensures { result ≡ [] }
    {
        Stack {
            items: [0; N],
            depth: 0,
        }
    }

    #[tactic(auto, using(crate::proofs::Held::length_held, crate::proofs::Held::held_pushed))]
    pub fn push(&mut self, x: u16)
        requires { length self.old < N }
        ensures { self.new ≡ x ∷ self.old }
    {
        self.items[self.depth] = x;
        self.depth += 1;
    }

    // The top is taken off, if there is one.
    pub fn pop(&mut self) -> Option<u16>
        ensures { MatchOption result ((self.old ≡ []) × (self.new ≡ [])) (λ x. self.old ≡ x ∷ self.new) }
    {
        if self.depth == 0 {
            return None;
        }
        self.depth -= 1;
        Some(self.items[self.depth])
    }
}
