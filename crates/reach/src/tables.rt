// The turned tables that the passes go along.
ghost use Rattle.std.specs.Prelude.{◌≡◌, ◌≤◌, length};
ghost use Rattle.meaning.specs.Bounds.{most_states, most_values, table_size};

// The tables of a rule set with the arcs on one value in one row, a place for each state.
#[derive(Clone, Copy)]
pub(crate) struct Turned<'a> {
    pub(crate) states: usize,
    pub(crate) values: usize,
    pub(crate) targets: &'a [u8],
    pub(crate) costs: &'a [u16],
    ghost in_range: { (states ≤ most_states) × (values ≤ most_values) × (length targets.now ≡ table_size) × (length costs.now ≡ table_size) },
}
