// The configurations that are met, each once; in the order first met they are the states of the sheet.
ghost use Rattle.std.specs.Prelude.{◌≡◌, List, [], ◌∷◌, ℕ, ◌≤◌, length, take, position, eqb};
ghost use Rattle.meaning.specs.Bounds.{most_states};
ghost use Rattle.numbering.specs.Numbering.{target_of};
ghost use Rattle.compositor.specs.Inner.{list_size, meet_in, meets_in};

use rules::bounds;
use std::marker::Model;

// A list with room for one more than a sheet has states.
#[derive(Drop)]
pub(crate) struct Met {
    list: [u32; bounds::MOST_STATES + 1],
    count: usize,
}

// Clauses see the configurations, in the order first met.
impl Model for Met {
    ghost Value = { List ℕ };

    ghost view = { λ m. take m.count m.list };

    ghost invariant = { λ m. m.count ≤ list_size };
}

impl Met {
    // The start alone.
    pub(crate) fn start() -> Met
        ensures { result ≡ 0 ∷ [] }
    {
        Met {
            list: [0; bounds::MOST_STATES + 1],
            count: 1,
        }
    }

    pub(crate) fn configurations(&self) -> &[u32]
        ensures { result.now ≡ self.now }
    {
        &self.list[..self.count]
    }

    // Where c is.
    fn index_of(&self, c: u32) -> Option<usize>
        ensures { result ≡ position (λ x. eqb x c) self.now }
    {
        self.configurations().iter().position(|x| *x == c)
    }

    // The state of a configuration, or no arc; for one that is not met their number, as the definition has it.
    #[tactic(auto, using(crate::proofs::Seek::found_at), unfolding(numbering::specs::Numbering::target_of))]
    pub(crate) fn target_of(&self, c: u32) -> u8
        requires { length self.now ≤ most_states }
        ensures { result ≡ target_of self.now c }
    {
        if c == 0 {
            return bounds::NO_TARGET;
        }
        self.index_of(c).unwrap_or(self.count) as u8
    }

    // c is met: it goes to the end, unless it is none, or there is no room, or it was met before.
    fn meet_one(&mut self, c: u32)
        ensures { self.new ≡ meet_in list_size self.old c }
    {
        if c != 0 && self.count < self.list.len() && self.index_of(c).is_none() {
            self.list[self.count] = c;
            self.count += 1;
        }
    }

    // The configurations of a row are met, from left to right.
    pub(crate) fn meet_row(&mut self, row: &[u32])
        ensures { self.new ≡ meets_in list_size self.old row.now }
    {
        for c in row {
            self.meet_one(*c);
        }
    }
}
