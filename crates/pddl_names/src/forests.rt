//! Trees with jumps: which numbers are above another, in logarithmic time.

ghost use Rattle.std.specs.Prelude.{◌≡◌, ◌⊎◌, ◌+◌, ◌-◌, ◌<◌, ◌≤◌, ◌^◌, ℕ, IfOk, OnOk, length};
ghost use Rattle.std.specs.Prelude.{slice_set, true, false};
ghost use Rattle.std.specs.Bool.{Decides};
ghost use Rattle.std.specs.List.{slice_index_or};
ghost use Rattle.pddl_names.specs.Forests.{up, node_at, AreUps, climb, Reaches, IsMarked, IsPath};
ghost use Rattle.pddl_names.specs.Forests.{IsSettled, IsForest, IsUnder, IsStep};

use mre_base::NoMemory;
use std::alloc::Global;

/// What is known of a number in a forest: the root above it, how deep it is below that root, and a
/// number above it to which one can jump.
#[derive(Clone, Copy)]
pub struct Node {
    pub root: u32,
    pub depth: u32,
    pub jump: u32,
}

// What is known of a number.
pub(crate) fn node_at(nodes: &Vec<Node>, number: u32) -> Node
    ensures { result ≡ node_at nodes.now.items number }
{
    match nodes.get(number as usize) {
        Some(node) => *node,
        None => Node {
            root: 0,
            depth: 0,
            jump: 0,
        },
    }
}

// The parent of a number.
pub(crate) fn up(ups: &Vec<u32>, number: u32) -> u32
    ensures { result ≡ up ups.now.items number }
{
    match ups.get(number as usize) {
        Some(parent) => *parent,
        None => 0,
    }
}

// Whether a number is marked.
fn is_marked(marks: &Vec<bool>, number: u32) -> bool
    ensures { result ≡ slice_index_or marks.now.items number false }
{
    match marks.get(number as usize) {
        Some(mark) => *mark,
        None => false,
    }
}

// Where one jumps to from a number below a parent, after Myers: as far as two jumps from the parent
// go, if those are equally long, and otherwise to the parent.
fn jump_below(nodes: &Vec<Node>, parent: u32) -> u32
    ensures { (result ≡ parent)
        ⊎ (result ≡ (node_at nodes.now.items (node_at nodes.now.items parent).jump).jump) }
{
    let first = node_at(nodes, parent);
    let second = node_at(nodes, first.jump);
    let third = node_at(nodes, second.jump);
    let equal = first.depth as u64 + third.depth as u64
        == second.depth as u64 + second.depth as u64;
    if equal { second.jump } else { parent }
}

// Sets what is known of a number, and marks it as done.
fn put(nodes: &mut Vec<Node>, done: &mut Vec<bool>, number: u32, node: Node)
    requires nodes { number < length nodes.old.items }
    requires done { number < length done.old.items }
    ensures nodes { nodes.new.items ≡ slice_set nodes.old.items number node }
    ensures done { done.new.items ≡ slice_set done.old.items number true }
{
    nodes[number as usize] = node;
    done[number as usize] = true;
}

// What is known of a number below its parent, of which it is known.
fn below(ups: &Vec<u32>, nodes: &Vec<Node>, number: u32) -> Node
    requires { (node_at nodes.now.items (up ups.now.items number)).depth < 2 ^ 30 }
    ensures root { result.root ≡ (node_at nodes.now.items (up ups.now.items number)).root }
    ensures depth { result.depth ≡ (node_at nodes.now.items (up ups.now.items number)).depth + 1 }
    ensures jump { (result.jump ≡ up ups.now.items number)
        ⊎ (result.jump ≡ (node_at nodes.now.items
        (node_at nodes.now.items (up ups.now.items number)).jump).jump) }
{
    let parent = up(ups, number);
    let above = node_at(nodes, parent);
    Node {
        root: above.root,
        depth: above.depth + 1,
        jump: jump_below(nodes, parent),
    }
}

// The path from a number up to one that was seen before or is on the path, which is the second.
fn path_from(
    alloc: Global,
    ups: &Vec<u32>,
    seen: &mut Vec<bool>,
    start: u32,
) -> Result<(Vec<u32>, u32), NoMemory>
    requires ups { AreUps ups.now.items }
    requires seen { length seen.old.items ≡ length ups.now.items }
    requires start { start < length ups.now.items }
    ensures ok { IfOk result (λ found.
        IsPath ups.now.items seen.old.items seen.new.items start found.0.items found.1) }
    ensures end { IfOk result (λ found. IsMarked seen.new.items found.1) }
{
    let mut path = Vec::new(alloc);
    let mut at = start;
    while !is_marked(seen, at) {
        seen[at as usize] = true;
        path.push(at)?;
        at = up(ups, at);
    }
    Ok((path, at))
}

// Makes a number a root, if it isn't done.
fn settle_end(nodes: &mut Vec<Node>, done: &mut Vec<bool>, end: u32)
    requires nodes { end < length nodes.old.items }
    requires done { end < length done.old.items }
    ensures { (IsMarked done.old.items end × (nodes.new.items ≡ nodes.old.items)
        × (done.new.items ≡ done.old.items))
        ⊎ ((slice_index_or done.old.items end false ≡ false)
        × (nodes.new.items ≡ slice_set nodes.old.items end (record {
          root = end;
          depth = 0;
          jump = end;
        }))
        × (done.new.items ≡ slice_set done.old.items end true)) }
{
    if is_marked(done, end) {
        return;
    }
    let root = Node {
        root: end,
        depth: 0,
        jump: end,
    };
    put(nodes, done, end, root);
}

// Places a number and all above it.
fn settle(
    alloc: Global,
    ups: &Vec<u32>,
    nodes: &mut Vec<Node>,
    done: &mut Vec<bool>,
    seen: &mut Vec<bool>,
    start: u32,
) -> Result<(), NoMemory>
    requires few { length ups.now.items < 2 ^ 30 }
    requires ups { AreUps ups.now.items }
    requires settled { IsSettled ups.now.items nodes.old.items done.old.items seen.old.items }
    requires start { start < length ups.now.items }
    ensures settled { OnOk result
        (IsSettled ups.now.items nodes.new.items done.new.items seen.new.items) }
    ensures started { OnOk result (IsMarked done.new.items start) }
    ensures kept { OnOk result ((number : ℕ) → IsMarked done.old.items number →
        IsMarked done.new.items number) }
{
    let (path, end) = path_from(alloc, ups, seen, start)?;
    settle_end(nodes, done, end);
    for place in (0..path.len()).rev() {
        let number = path[place];
        if is_marked(done, number) {
            continue;
        }
        let node = below(ups, nodes, number);
        put(nodes, done, number, node);
    }
    Ok(())
}

/// What is known of each number, by the parents.
pub(crate) fn forest_of(alloc: Global, ups: &Vec<u32>) -> Result<Vec<Node>, NoMemory>
    requires few { length ups.now.items < 2 ^ 30 }
    requires ups { AreUps ups.now.items }
    ensures ok { IfOk result (λ nodes. IsForest ups.now.items nodes.items) }
{
    let none = Node {
        root: 0,
        depth: 0,
        jump: 0,
    };
    let mut nodes = vec![in alloc; none; ups.len()]?;
    let mut done = vec![in alloc; false; ups.len()]?;
    let mut seen = vec![in alloc; false; ups.len()]?;
    for start in 0..ups.len() {
        settle(alloc, ups, &mut nodes, &mut done, &mut seen, start as u32)?;
    }
    Ok(nodes)
}

// A step up from a number, as far as one jumps from there if that isn't above a depth.
fn step_up(ups: &Vec<u32>, nodes: &Vec<Node>, from: u32, depth: u32) -> u32
    requires forest { IsForest ups.now.items nodes.now.items }
    requires from { from < length ups.now.items }
    requires deep { depth < (node_at nodes.now.items from).depth }
    ensures { IsStep ups.now.items nodes.now.items from result depth }
{
    let jump = node_at(nodes, from).jump;
    if node_at(nodes, jump).depth >= depth {
        jump
    } else {
        up(ups, from)
    }
}

// The number at a depth above a number.
fn above_at(ups: &Vec<u32>, nodes: &Vec<Node>, from: u32, depth: u32) -> u32
    requires forest { IsForest ups.now.items nodes.now.items }
    requires from { from < length ups.now.items }
    requires deep { depth ≤ (node_at nodes.now.items from).depth }
    ensures { result ≡ climb ups.now.items ((node_at nodes.now.items from).depth - depth) from }
{
    let mut at = from;
    while node_at(nodes, at).depth > depth {
        at = step_up(ups, nodes, at, depth);
    }
    at
}

// Whether a number is above another in its tree.
fn is_under(ups: &Vec<u32>, nodes: &Vec<Node>, from: u32, to: u32) -> bool
    requires forest { IsForest ups.now.items nodes.now.items }
    requires from { from < length ups.now.items }
    ensures { Decides result (IsUnder ups.now.items nodes.now.items from to) }
{
    let depth = node_at(nodes, to).depth;
    if node_at(nodes, from).depth < depth {
        return false;
    }
    above_at(ups, nodes, from, depth) == to
}

/// Whether a number is another, or its chain of parents reaches the other. The time grows as the
/// logarithm of the depth.
pub(crate) fn does_reach(ups: &Vec<u32>, nodes: &Vec<Node>, from: u32, to: u32) -> bool
    requires forest { IsForest ups.now.items nodes.now.items }
    requires from { from < length ups.now.items }
    ensures { Decides result (Reaches ups.now.items from to) }
{
    if is_under(ups, nodes, from, to) {
        return true;
    }
    let round = up(ups, node_at(nodes, from).root);
    is_under(ups, nodes, round, to)
}
