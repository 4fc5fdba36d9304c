// The last place at which two chains of messages differ: both messages, each put into a lent buffer with zeros after it. A chain is lent end
// to end. These are helpers for the crates above, and require.
#![tactic(auto)]

ghost use Rattle.std.specs.Prelude.{◌≡◌, ◌+◌, ◌*◌, ◌^◌, ◌≤◌, ◌<◌, length};
ghost use Rattle.theory_laws.specs.Lists.{part};
ghost use Rattle.theory_merkle.specs.Binding.{differing, last_differing};
ghost use Rattle.theory_compare.specs.Compare.{in_buffer, message_buffer};
ghost use Rattle.compare_pick.specs.helpers.Chains.{chain_of, Chains, PickedIn, MessagesThere};

use bytes_numbers::{clear, put, same_bytes};

// A message in its buffer, zeros after it.
fn put_message(out: &mut [u8], message: &[u8])
    requires { (length out.old ≡ message_buffer) × (length message.now ≤ message_buffer) }
    ensures { out.new ≡ in_buffer message.now }
{
    let end = put(out, 0, message);
    clear(out, end);
}

// The messages of this length at one place of two chains: if they differ, both in their buffers and their length.
fn pick_at(
    a: &[u8],
    b: &[u8],
    from: usize,
    len: usize,
    first: &mut [u8],
    second: &mut [u8],
) -> Option<usize>
    requires { MessagesThere len from (length a.now) (length b.now) (length first.old) (length second.old) }
    ensures { PickedIn (differing (part len from a.now) (part len from b.now)) first second result }
{
    let to = from + len;
    if same_bytes(&a[from..to], &b[from..to]) {
        return None;
    }
    put_message(first, &a[from..to]);
    put_message(second, &b[from..to]);
    Some(len)
}

// Where node message j of a chain begins.
fn node_at(leaf: usize, node: usize, depth: usize, j: usize) -> usize
    requires { (j < depth) × (leaf + node * depth < 2 ^ 64) }
    ensures { (result ≡ leaf + node * j) × (result + node ≤ leaf + node * depth) }
{
    leaf + node * j
}

// The last messages of two chains that differ, the root's first: each chain has a leaf message and then node messages, lent end to end.
pub fn pick_last(
    a: &[u8],
    b: &[u8],
    leaf: usize,
    node: usize,
    depth: usize,
    first: &mut [u8],
    second: &mut [u8],
) -> Option<usize>
    requires { Chains leaf node depth a.now b.now first.old second.old }
    ensures { PickedIn (last_differing (chain_of leaf node depth a.now) (chain_of leaf node depth b.now)) first second result }
{
    for i in (0..depth).rev() {
        let from = node_at(leaf, node, depth, i);
        if let Some(m) = pick_at(a, b, from, node, first, second) {
            return Some(m);
        }
    }
    pick_at(a, b, 0, leaf, first, second)
}
