// The entries of a graph's states.
ghost use Rattle.std.specs.Prelude.{◌≡◌, ◌≤◌, length};
ghost use Rattle.tables.specs.Entries.{height_at};

use crate::weighted::Weighted;

// The entry of a state from which no run leads to the goal.
// No Option: the mark stands in entries that are lent, numbers by a rule of the project.
pub const MARK: u64 = u64::MAX;

// The height that an entry stands for.
pub(crate) fn height_of(entry: u64) -> Option<u64>
    ensures { result ≡ height_at entry }
{
    (entry != MARK).then_some(entry)
}

// A graph, and at least as many entries as it has states: the first ones are theirs, by rank.
#[derive(Drop)]
pub(crate) struct StateEntries<'a> {
    pub(crate) graph: &'a Weighted<'a>,
    pub(crate) entries: &'a [u64],
    ghost long: { graph.now.states ≤ length entries.now },
}
