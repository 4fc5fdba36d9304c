// Four compressions of BLAKE3 at once: word i of lane l stands at 4 * i + l. The loop over the lanes has a whole round as its body, with
// nothing left called in it once it is inlined, and the state is a local of `compress`: so the compiler makes the four lanes one vector.
// These are helpers for the crates above: those with a `requires` are not for export.
#![tactic(auto)]

ghost use Rattle.std.specs.Prelude.{◌≡◌, ◌+◌, ◌*◌, ◌-◌, ◌<◌, length};
ghost use Rattle.theory_laws.specs.Table.{at};
ghost use Rattle.theory_blake3.specs.Compression as C;
ghost use Rattle.theory_blake3.specs.Orders as O;
ghost use Rattle.hash_four_lanes.specs.helpers.Lane as X;
ghost use Rattle.hash_four_lanes.specs.helpers.Lane.{Each};

// The N words of lane l: of the state and of the message they are 16, of the chaining values 8.
pub fn lane<const N: usize, const M: usize>(s: &[u32; M], l: usize) -> [u32; N]
    requires { (l < 4) × (M ≡ 4 * N) }
    ensures { result ≡ X.lane N s.now l }
{
    let mut v = [0u32; N];
    for i in 0..N {
        v[i] = s[4 * i + l];
    }
    v
}

// The words of a lane of the message, in an order.
fn ordered(m: &[u32; 64], o: &[u8; 16], l: usize) -> [u32; 16]
    requires { (O.Small o.now) × (l < 4) }
    ensures { result ≡ O.ordered (X.lane 16 m.now l) o.now }
{
    let mut v = [0u32; 16];
    for i in 0..16 {
        let k = o[i] as usize;
        v[i] = m[4 * k + l];
    }
    v
}

// v becomes lane l, and the other lanes stay.
pub fn store(s: &mut [u32; 64], l: usize, v: [u32; 16])
    requires { (l < 4) × (length s.old ≡ 64) }
    ensures { X.Stored s.old s.new l v }
{
    for i in 0..16 {
        s[4 * i + l] = v[i];
    }
}

// A round on each lane: the first round of its words, once these stand in their order.
fn round(s: &mut [u32; 64], m: &[u32; 64], o: &[u8; 16])
    requires { (O.Small o.now) × (length s.old ≡ 64) }
    ensures s_len { length s.new ≡ 64 }
    ensures each { Each 16 s.new (λ k. C.round (X.lane 16 s.old k) (O.ordered (X.lane 16 m.now k) o.now)) }
{
    for l in 0..4 {
        let w = ordered(m, o, l);
        let mut v = lane(s, l);
        hash_compress::round_0(&mut v, &w);
        store(s, l, v);
    }
}

// The seven rounds on each lane.
fn rounds(s: &mut [u32; 64], m: &[u32; 64])
    requires { length s.old ≡ 64 }
    ensures { Each 16 s.new (λ k. C.rounds 7 (X.lane 16 s.old k) (X.lane 16 m.now k)) }
{
    let order = hash_compress::orders();
    for r in 0..7 {
        let o = order[r];
        round(s, m, &o);
    }
}

// The state that the rounds start from, in each lane with a counter of its own.
fn initial(h: &[u32; 32], counters: &[u64; 4], len: u32, flags: u32) -> [u32; 64]
    ensures result_len { length result ≡ 64 }
    ensures each { Each 16 result (λ k. C.initial (X.lane 8 h.now k) (at counters.now k) len flags) }
{
    let mut s = [0u32; 64];
    for l in 0..4 {
        let t = counters[l];
        let v = hash_compress::initial(lane(h, l), t, len, flags);
        store(&mut s, l, v);
    }
    s
}

// The chaining values, of the state that the rounds end in.
fn output(s: &[u32; 64]) -> [u32; 32]
    ensures { Each 8 result (λ k. X.value (X.lane 16 s.now k)) }
{
    let mut h = [0u32; 32];
    for j in 0..32 {
        h[j] = s[j] ^ s[j + 32];
    }
    h
}

// Each lane's chaining value after one more block.
pub fn compress(
    h: &[u32; 32],
    m: &[u32; 64],
    counters: &[u64; 4],
    len: u32,
    flags: u32,
) -> [u32; 32]
    ensures { Each 8 result (X.compressed h.now m.now counters.now len flags) }
{
    let mut s = initial(h, counters, len, flags);
    rounds(&mut s, m);
    output(&s)
}
