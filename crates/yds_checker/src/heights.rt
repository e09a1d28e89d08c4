ghost use Rattle.std.specs.Prelude.{◌≡◌, ℕ, ◌+◌, ◌*◌, ◌<◌, ◌≤◌, ◌↔◌, IsTrue, IfOk, length, max, slice_index};
ghost use Rattle.yds_checker.specs.Heights.{IsHeight, AreRaised, AreHeights, AreWithin};

use crate::placed::Placed;
use std::alloc::Global;
use yds_model::Memory;

/// How high the piece stands: its level's number where the next piece begins at its end, else above all levels.
fn height(placed: &[Placed], i: usize) -> u32
    requires { i < length placed.now }
    ensures { IsHeight placed.now i result }
{
    let piece = &placed[i];
    if i + 1 < placed.len() && placed[i + 1].from == piece.to {
        piece.level
    } else {
        u32::MAX
    }
}

/// As many zeros as there are pieces, and then the pieces' heights.
fn leaves(alloc: Global, placed: &[Placed]) -> Result<Vec<u32>, Memory>
    ensures size { IfOk result (λ nodes. length nodes.items ≡ length placed.now + length placed.now) }
    ensures leaf { IfOk result (λ nodes. (i : ℕ) → i < length placed.now → IsHeight placed.now i (slice_index nodes.items (length placed.now + i))) }
{
    let mut nodes = Vec::new(alloc);
    nodes.resize(placed.len(), 0)?;
    for i in 0..placed.len() {
        nodes.push(height(placed, i))?;
    }
    Ok(nodes)
}

/// Makes each node before the leaves the greater of the two below it.
fn raise(nodes: &mut [u32], leaves: usize)
    requires { length nodes.old ≡ leaves + leaves }
    ensures raised { AreRaised nodes.new leaves }
    ensures kept { (k : ℕ) → leaves ≤ k → slice_index nodes.new k ≡ slice_index nodes.old k }
{
    for k in (1..leaves).rev() {
        nodes[k] = nodes[2 * k].max(nodes[2 * k + 1]);
    }
}

/// The heights of the pieces behind as many nodes, of which each is the greater of the two below it: below the node at
/// k are those at 2k and 2k + 1.
pub(crate) fn heights(alloc: Global, placed: &[Placed]) -> Result<Vec<u32>, Memory>
    ensures { IfOk result (λ nodes. AreHeights placed.now nodes.items) }
{
    let mut nodes = leaves(alloc, placed)?;
    raise(&mut nodes, placed.len());
    Ok(nodes)
}

/// Whether no node from one place to before another is above the bound.
///
/// Where the nodes at both ends aren't, the others are told by the nodes above them.
pub(crate) fn are_within(nodes: &[u32], from: usize, to: usize, bound: u32) -> bool
    requires start { 1 ≤ from }
    requires end { to ≤ length nodes.now }
    ensures { (leaves : ℕ) → AreRaised nodes.now leaves → (IsTrue result ↔ AreWithin nodes.now from to bound) }
{
    let mut left = from;
    let mut right = to;
    while left < right {
        if bound < nodes[left] || bound < nodes[right - 1] {
            return false;
        }
        left = left.div_ceil(2);
        right /= 2;
    }
    true
}
