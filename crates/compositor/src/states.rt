// The states: configurations met breadth first, each once.
ghost use Rattle.std.specs.Prelude.{◌≡◌, ◌≤◌, take};
ghost use Rattle.meaning.specs.Bounds.{most_states, most_values};
ghost use Rattle.patterns.specs.Line.{most_letters};
ghost use Rattle.numbering.specs.Numbering.{row_of, met};
ghost use Rattle.compositor.specs.Inner.{list_size, unions_of, set_by, onward_in, ends_by};

use crate::letters::Marks;
use crate::met::Met;
use crate::parts::{Follow, pick};
use rules::bounds;

// The automaton of a pattern on sets of letter places: whether it matches the empty word, the places that can read a first and a last
// letter, what can follow each place, and the places of each value.
#[derive(Drop)]
pub(crate) struct Automaton {
    pub null: bool,
    pub first: u32,
    pub last: u32,
    pub follow: Follow,
    pub marks: Marks,
}

impl Automaton {
    // The places that can follow one of the set c.
    fn union_of(&self, c: u32) -> u32
        ensures { result ≡ unions_of self.now.follow c most_letters }
    {
        let mut set = 0u32;
        for (i, f) in self.follow.iter().enumerate() {
            set = pick(c, i, *f) | set;
        }
        set
    }

    // The places that can read the next letter, whatever it is.
    #[tactic(auto, unfolding(crate::specs::Inner::set_by))]
    fn set_of(&self, c: u32) -> u32
        ensures { result ≡ set_by self.now.first self.now.follow c }
    {
        if c == 0 {
            return self.first;
        }
        self.union_of(c)
    }

    // The configurations after c, smaller value first.
    pub(crate) fn onward_row(&self, values: usize, c: u32) -> [u32; bounds::MOST_VALUES]
        requires { values ≤ most_values }
        ensures { take values result ≡ row_of (onward_in self.now) values c }
    {
        let set = self.set_of(c);
        let mut row = [0u32; bounds::MOST_VALUES];
        for v in 0..values {
            row[v] = self.marks[v] & set;
        }
        row
    }

    // Whether the configuration accepts: the empty prefix if the pattern matches the empty word, any other by a last place.
    #[tactic(auto, unfolding(crate::specs::Inner::ends_by))]
    pub(crate) fn accepts(&self, c: u32) -> bool
        ensures { result ≡ ends_by self.now.null self.now.last c }
    {
        if c == 0 {
            return self.null;
        }
        (c & self.last) != 0
    }

    // The configurations that are reached, in the order first met; 65 of them if there are more than 64.
    pub(crate) fn explore(&self, values: usize) -> Met
        requires { values ≤ most_values }
        ensures { result ≡ take list_size (met (onward_in self.now) values 0 most_states) }
    {
        let mut met = Met::start();
        for at in 0..bounds::MOST_STATES {
            let count = met.configurations().len();
            if count <= at {
                return met;
            }
            // the 65th decides, whatever else would be met
            if bounds::MOST_STATES < count {
                return met;
            }
            let row = self.onward_row(values, met.configurations()[at]);
            met.meet_row(&row[..values]);
        }
        met
    }
}
