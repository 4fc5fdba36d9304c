// The stack of chaining values of BLAKE3, in one flat array of words: how the value of a finished chunk goes onto it, and the root of
// the tree over it. 14 values serve 2^24 bytes. These are helpers for the crates above, and they require: they are not for export.
#![tactic(auto)]

ghost use Rattle.std.specs.Prelude.{◌≡◌, ℕ, ◌+◌, ◌*◌, ◌-◌, ◌<◌, ◌≤◌, replicate};
ghost use Rattle.theory_laws.specs.Lists.{stored};
ghost use Rattle.theory_blake3.specs.Stack as B;
ghost use Rattle.hash_node.specs.helpers.Node.{out_of};

use hash_node::{Node, parent};
use theory_blake3::Mode;

// A stack: its values stand one after the other in the array, eight words each, the top last, and `depth` says how many they are. One flat
// array, with `depth` beside it: no heap, and theory_blake3's `entries` and `pushed` speak of the flat array.
#[derive(Clone, Copy)]
pub struct Stack {
    pub values: [u32; 112],
    pub depth: usize,
}

impl Stack {
    // No value yet.
    pub fn new() -> Stack
        ensures values { result.values ≡ replicate 112 0 }
        ensures depth { result.depth ≡ 0 }
    {
        Stack {
            values: [0; 112],
            depth: 0,
        }
    }

    // Value i of the stack.
    fn entry(&self, i: usize) -> [u32; 8]
        requires { i < 14 }
        ensures { result ≡ B.entry self.now.values i }
    {
        self.values[8 * i..8 * i + 8].try_into().unwrap()
    }

    // A value joined to the `count` values on top, one after the other.
    fn joined(&self, mode: Mode, count: usize, v: [u32; 8]) -> [u32; 8]
        requires { (count ≤ self.now.depth) × (self.now.depth ≤ 14) }
        ensures { result ≡ B.joined mode.key mode.flags count self.now.values self.now.depth v }
    {
        let mut u = v;
        for i in (self.depth - count..self.depth).rev() {
            let p = parent(mode, self.entry(i), u);
            u = p.value(0);
        }
        u
    }

    // A value joined to the `count` values on top, and put in their place.
    pub fn push(&mut self, mode: Mode, count: usize, v: [u32; 8])
        requires { (count ≤ self.old.depth) × (self.old.depth ≤ 14) × (self.old.depth - count < 14) }
        ensures depth { self.new.depth ≡ B.pushed_depth count self.old.depth }
        ensures values { self.new.values ≡ B.pushed mode.key mode.flags count self.old.values self.old.depth v }
    {
        let u = self.joined(mode, count, v);
        let i = self.depth - count;
        self.values[8 * i..8 * i + 8].copy_from_slice(&u);
        self.depth = i + 1;
    }

    // The root of the tree whose last chunk is the node n.
    pub fn root(&self, mode: Mode, n: Node) -> Node
        requires { self.now.depth ≤ 14 }
        ensures { (x : ℕ) → out_of result x ≡ B.fold mode.key mode.flags (B.entries self.now.values self.now.depth) (out_of n) x }
    {
        let mut r = n;
        for i in (0..self.depth).rev() {
            let v = r.value(0);
            r = parent(mode, self.entry(i), v);
        }
        r
    }
}
