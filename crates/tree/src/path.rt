// The way down a tree: which child was taken in each node from the root on. Clauses see the nodes as a list, the lowest first.
ghost use Rattle.std.specs.Prelude.{◌≡◌, ◌<◌, ◌≤◌, [], ◌∷◌, length, MatchOption};
ghost use Rattle.tree.specs.Sizes.{longest};

use std::marker::Model;

// No path has more nodes; specs/Sizes.antt has the same number.
pub const LONGEST: usize = 8;

// A node, and which of its children is taken, or is next.
#[derive(Clone, Copy, Default)]
pub struct Branch {
    pub block: u32,
    pub place: u32,
}

// The first `count` of the branches are on it, from the root on, and the others are blank. An array and a count, since a path can be copied, and an ArrayVec can't.
#[derive(Clone, Copy)]
pub struct Path {
    branches: [Branch; LONGEST],
    count: usize,
}

impl Model for Path {
    ghost use Rattle.std.specs.Prelude.{◌≡◌, ℕ, ◌-◌, ◌≤◌, List, ◌++◌, length, reverse, take, replicate, slice_index_or};
    ghost use Rattle.tree.specs.Sizes.{longest};
    ghost use Rattle.tree.specs.declared.path.Branch.{Branch};
    ghost use Rattle.tree.specs.Branches.{no_branch, given_back, counted};

    ghost Value = { List Branch };

    ghost view = { λ p. reverse (take p.count p.branches) };

    ghost invariant = { λ p. (p.count ≤ longest) × ((length p.branches ≡ longest) × ((i : ℕ) → p.count ≤ i → slice_index_or p.branches i no_branch ≡ no_branch)) };

    ghost inverse = { λ ws. record { branches = reverse ws ++ replicate (longest - length ws) no_branch; count = length ws } };

    ghost inverse_ok = { λ p h i. record { branches = given_back p.count p.branches h.0 h.1.0 h.1.1 i; count = counted p.count p.branches h.0 h.1.0 h.1.1 i } };
}

impl Path {
    pub fn new() -> Path
        ensures { result ≡ [] }
    {
        Path {
            branches: [Branch::default(); LONGEST],
            count: 0,
        }
    }

    pub fn len(&self) -> usize
        ensures len { result ≡ length self.now }
        ensures few { result ≤ longest }
    {
        self.count
    }

    // One node further down. That a path has at most 8 nodes callers may take as given, since they don't see it; here `len` tells it to the proof.
    pub fn push(&mut self, branch: Branch)
        requires { length self.old ≤ longest → length self.old < longest }
        ensures pushed { self.new ≡ branch ∷ self.old }
        ensures few { length self.new ≤ longest }
    {
        let _few = self.len();
        self.branches[self.count] = branch;
        self.count += 1;
    }

    // The lowest node, which is no longer there then. None: there is no node.
    pub fn pop(&mut self) -> Option<Branch>
        ensures { MatchOption result ((self.old ≡ []) × (self.new ≡ [])) (λ b. self.old ≡ b ∷ self.new) }
    {
        self.count = self.count.checked_sub(1)?;
        Some(std::mem::take(&mut self.branches[self.count]))
    }
}
