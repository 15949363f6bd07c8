//! Sets that sendings are to choose from.
ghost use Rattle.std.specs.Prelude.{◌≡◌, ◌<◌, ◌≤◌, [], ◌∷◌, length};
ghost use Rattle.board_model.specs.Run.{next_wish, later_wishes};

use irq_bits::CpuSet;
use std::marker::Model;

/// Sets of processors of which sendings are to choose, in the order of the sendings. There is room for 561.
#[derive(Drop)]
pub struct WishList {
    sets: [CpuSet; 561],
    /// Where they begin; they go on to the end.
    first: usize,
}

impl Model for WishList {
    ghost use Rattle.std.specs.Prelude.{◌≡◌, List, drop, length, ◌≤◌};
    ghost use Rattle.std.specs.Coded.{coded_list, coded_ℕ};
    ghost use Rattle.std.specs.FinSet as set;
    ghost use Rattle.irq_bits.specs.Members.{Numbers};

    ghost Value = { List Numbers };

    ghost coded = { coded_list (set.code coded_ℕ) };

    ghost view = { λ w. drop w.first w.sets };

    ghost invariant = { λ w. (length w.sets ≡ 561) × (w.first ≤ 561) };
}

impl WishList {
    /// Nothing is wished for.
    pub fn none() -> WishList
        ensures { result ≡ [] }
    {
        WishList {
            sets: [CpuSet::empty(); 561],
            first: 561,
        }
    }

    /// Puts a wish before the others.
    pub fn put_first(&mut self, wish: CpuSet)
        requires { length self.old < 561 }
        ensures { self.new ≡ wish ∷ self.old }
    {
        self.first -= 1;
        self.sets[self.first] = wish;
    }

    /// Takes the first wish off; nobody is wished for where there is none.
    pub fn take_first(&mut self) -> CpuSet
        ensures value { result ≡ next_wish self.old }
        ensures later { self.new ≡ later_wishes self.old }
    {
        if self.first == 561 {
            CpuSet::empty()
        } else {
            let wish = self.sets[self.first];
            self.first += 1;
            wish
        }
    }

    /// The wishes.
    pub fn as_slice(&self) -> &[CpuSet]
        ensures { result.now ≡ self.now }
    {
        let sets = &self.sets[..];
        &sets[self.first..]
    }

    /// Nothing is wished for any more.
    pub fn clear(&mut self)
        ensures { self.new ≡ [] }
    {
        self.first = 561;
    }

    /// From now on these are wished for, and no others.
    pub fn set_to(&mut self, wishes: &[CpuSet])
        requires { length wishes.now ≤ 561 }
        ensures { self.new ≡ wishes.now }
    {
        self.clear();
        for k in (0..wishes.len()).rev() {
            self.put_first(wishes[k]);
        }
    }
}
