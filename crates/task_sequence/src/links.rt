ghost use Rattle.std.specs.Prelude.{◌≡◌, ◌≢◌, ℕ, ◌+◌, ◌^◌, ◌<◌, ◌↔◌, ◌++◌, ◌∷◌, [], drop, option_map, slice_get, IsNone, IfNone, OnSome};
ghost use Rattle.slab.specs.Slab.{slab_len, get, ContainsKey, HasRoomFor};
ghost use Rattle.task_sequence.specs.Links.{tasks_of, waiting_of, IsLinked, KeepsOthers};
ghost use Rattle.task_sequence.specs.Sequences.{first_of};
ghost use Rattle.task_sequence.specs.declared.links.Node.{Node};

use slab::Slab;
use task_base::{Behaviour, Key, TaskId};

/// A task that waits, and the key of the node behind it in its list.
#[derive(Clone, Copy)]
pub struct Node {
    pub task: TaskId,
    pub key: Key,
    pub effective: Behaviour,
    pub next: Option<usize>,
}

/// Where a list begins and ends, and how many nodes it has. An empty one has no ends: the two keys say nothing.
#[derive(Drop)]
pub struct Ends {
    pub first: usize,
    pub last: usize,
    pub count: usize,
}

/// Puts a node at the end of a list.
pub fn append(nodes: &mut Slab<Node>, ends: &mut Ends, node: Node)
    requires room { HasRoomFor nodes.old 1 }
    requires countable { ends.old.count < 2 ^ 32 }
    requires linked { IsLinked nodes.old.slots ends.old }
    requires last { node.next ≡ None }
    ensures linked { IsLinked nodes.new.slots ends.new }
    ensures tasks { tasks_of nodes.new.slots ends.new ≡ tasks_of nodes.old.slots ends.old ++ waiting_of node ∷ [] }
    ensures others { KeepsOthers nodes.old.slots ends.old nodes.new.slots ends.new }
    ensures count { ends.new.count ≡ ends.old.count + 1 }
    ensures held { slab_len nodes.new ≡ slab_len nodes.old + 1 }
    ensures capacity { nodes.new.capacity ≡ nodes.old.capacity }
{
    let key = nodes.insert_reserved(node);
    if ends.count == 0 {
        *ends = Ends {
            first: key,
            last: key,
            count: 1,
        };
        return;
    }
    lead(nodes, ends.last, key);
    ends.last = key;
    ends.count += 1;
}

/// Takes the first node out of a list, unless the list is empty.
pub fn take_first(nodes: &mut Slab<Node>, ends: &mut Ends) -> Option<Node>
    requires linked { IsLinked nodes.old.slots ends.old }
    ensures linked { IsLinked nodes.new.slots ends.new }
    ensures first { option_map waiting_of result ≡ slice_get (tasks_of nodes.old.slots ends.old) 0 }
    ensures tasks { tasks_of nodes.new.slots ends.new ≡ drop 1 (tasks_of nodes.old.slots ends.old) }
    ensures others { KeepsOthers nodes.old.slots ends.old nodes.new.slots ends.new }
    ensures empty { IsNone result ↔ (ends.old.count ≡ 0) }
    ensures count { OnSome result (ends.new.count + 1 ≡ ends.old.count) }
    ensures held { OnSome result (slab_len nodes.new + 1 ≡ slab_len nodes.old) }
    ensures capacity { nodes.new.capacity ≡ nodes.old.capacity }
    ensures unchanged { IfNone result ((nodes.new ≡ nodes.old) × (ends.new ≡ ends.old)) }
{
    if ends.count == 0 {
        return None;
    }
    let node = nodes.remove(ends.first);
    ends.first = node.next.unwrap_or(0);
    ends.count -= 1;
    Some(node)
}

/// The first task of a list with its key, if there is one.
pub fn first_task(nodes: &Slab<Node>, ends: &Ends) -> Option<(TaskId, Key)>
    requires linked { IsLinked nodes.now.slots ends.now }
    ensures { result ≡ first_of (tasks_of nodes.now.slots ends.now) }
{
    if ends.count == 0 {
        return None;
    }
    let node = nodes.get(ends.first)?;
    Some((node.task, node.key))
}

/// Makes a node lead to another one.
fn lead(nodes: &mut Slab<Node>, from: usize, to: usize)
    requires { ContainsKey nodes.old from }
    ensures leads { (node : Node) → get nodes.old from ≡ Some node → get nodes.new from ≡ Some (record node { next = Some to }) }
    ensures others { (other : ℕ) → other ≢ from → get nodes.new other ≡ get nodes.old other }
    ensures held { slab_len nodes.new ≡ slab_len nodes.old }
    ensures capacity { nodes.new.capacity ≡ nodes.old.capacity }
{
    if let Some(node) = nodes.get_mut(from) {
        node.next = Some(to);
    }
}
