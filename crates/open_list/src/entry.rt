//! The entries of a pool: nodes with their links.

ghost use Rattle.std.specs.Prelude.{◌≡◌, ◌<◌, length};
ghost use Rattle.open_list.specs.Entry.{changed, child_of, next_of, prev_of, with_node, with_next, with_prev};
ghost use Rattle.open_list.specs.Entry.{with_next_and_prev, with_child_and_next, relinked};

/// The link to no node.
pub(crate) const NONE: u32 = u32::MAX;

/// What stands in `prev` of a closed node.
pub(crate) const CLOSED: u32 = u32::MAX - 1;

/// A node and its links, which are numbers of nodes or `NONE`.
#[derive(Clone, Copy)]
pub(crate) struct Entry<N> {
    pub node: N,
    /// The first child.
    pub child: u32,
    /// The next sibling.
    pub next: u32,
    /// The sibling before, or the parent of a first child. It has no meaning at a root, and is
    /// `CLOSED` at a closed node.
    pub prev: u32,
}

pub(crate) fn child_of<N>(entries: &[Entry<N>], at: u32) -> u32
    requires { at < length entries.now }
    ensures { result ≡ child_of entries.now at }
{
    entries[at as usize].child
}

pub(crate) fn next_of<N>(entries: &[Entry<N>], at: u32) -> u32
    requires { at < length entries.now }
    ensures { result ≡ next_of entries.now at }
{
    entries[at as usize].next
}

pub(crate) fn prev_of<N>(entries: &[Entry<N>], at: u32) -> u32
    requires { at < length entries.now }
    ensures { result ≡ prev_of entries.now at }
{
    entries[at as usize].prev
}

pub(crate) fn set_node<N: Copy>(entries: &mut [Entry<N>], at: u32, node: N)
    requires { at < length entries.old }
    ensures { entries.new ≡ changed (with_node node) at entries.old }
{
    entries[at as usize].node = node;
}

pub(crate) fn set_next<N>(entries: &mut [Entry<N>], at: u32, next: u32)
    requires { at < length entries.old }
    ensures { entries.new ≡ changed (with_next next) at entries.old }
{
    entries[at as usize].next = next;
}

/// Does nothing at `NONE`.
pub(crate) fn set_prev<N>(entries: &mut [Entry<N>], at: u32, prev: u32)
    ensures { entries.new ≡ changed (with_prev prev) at entries.old }
{
    let at = at as usize;
    if at < entries.len() {
        entries[at].prev = prev;
    }
}

pub(crate) fn set_next_and_prev<N>(entries: &mut [Entry<N>], at: u32, next: u32, prev: u32)
    requires { at < length entries.old }
    ensures { entries.new ≡ changed (with_next_and_prev next prev) at entries.old }
{
    let entry = &mut entries[at as usize];
    entry.next = next;
    entry.prev = prev;
}

pub(crate) fn set_child_and_next<N>(entries: &mut [Entry<N>], at: u32, child: u32, next: u32)
    requires { at < length entries.old }
    ensures { entries.new ≡ changed (with_child_and_next child next) at entries.old }
{
    let entry = &mut entries[at as usize];
    entry.child = child;
    entry.next = next;
}

/// Lets the link that led to `old`, to the first child or to the next sibling, lead to `new`.
pub(crate) fn relink<N>(entries: &mut [Entry<N>], at: u32, old: u32, new: u32)
    requires { at < length entries.old }
    ensures { entries.new ≡ changed (relinked old new) at entries.old }
{
    let entry = &mut entries[at as usize];
    if entry.child == old {
        entry.child = new;
    } else {
        entry.next = new;
    }
}
