//! Iterates over the entries of a map in byte order of their keys: the first entry of each key.
ghost use Rattle.std.specs.Prelude.{◌≡◌, ◌<◌, IfSome, MatchOption};
ghost use Rattle.jt_value.specs.internal.InOrder.{to_come, IsInOrder};
ghost use Rattle.jt_value.specs.KeySearch.{Finds};
ghost use Rattle.jt_value.specs.Tree.{no_entries, entry, size, entries_size};
ghost use Rattle.jt_value.specs.View.{view, entries_view};

use crate::key_search::KeySearch;
use crate::text::Text;
use crate::value::Value;
use std::collections::btree_map::Values;

/// The entries that the iterator has yet to return.
#[derive(Drop)]
enum Rest<'a> {
    /// All entries from an index on. Their keys ascend.
    From(usize),
    /// The entries at the stored indices that remain.
    At(Values<'a, String, usize>),
}

/// An iterator over the first entry of each key of a map, in byte order. It allocates nothing.
#[derive(Drop)]
pub(crate) struct InOrder<'a> {
    entries: &'a [(Text, Value)],
    rest: Rest<'a>,
}

impl<'a> InOrder<'a> {
    /// Returns an iterator that starts at the first key. Returns `None` for a map with few entries,
    /// whose key order is unknown.
    pub(crate) fn new(entries: &'a [(Text, Value)], search: &'a KeySearch) -> Option<InOrder<'a>>
        requires { Finds search.now (entries_view entries.now) }
        ensures entries { IfSome result (λ order. order.entries.now ≡ entries.now) }
        ensures in_order { IfSome result
            (λ order. IsInOrder (to_come order) (entries_view entries.now)) }
    {
        let rest = match search {
            KeySearch::Linear => return None,
            KeySearch::Binary => Rest::From(0),
            KeySearch::Indexed(indices) => Rest::At(indices.values()),
        };
        Some(InOrder { entries, rest })
    }

    /// Returns the next entry. Its value is smaller than the map, so a recursion into it
    /// terminates.
    pub(crate) fn next(&mut self) -> Option<&'a (Text, Value)>
        ensures entries { self.new.entries ≡ self.old.entries }
        ensures step { MatchOption result (to_come self.old ≡ no_entries)
            (λ e. to_come self.old
            ≡ entry e.now.0 (view e.now.1) (to_come self.new)) }
        ensures smaller { IfSome result
            (λ e. size (view e.now.1) < entries_size (entries_view self.old.entries.now)) }
    {
        let index = match &mut self.rest {
            Rest::From(next) => {
                let index = *next;
                *next = index.saturating_add(1);
                index
            }
            Rest::At(indices) => *indices.next()?,
        };
        self.entries.get(index)
    }
}
