// Blocks of SP 800-38D as words of the field: taken in and given out, by value and over lent runs; and GHASH of a run of blocks. Bit i of a block, the
// leftmost being bit 0, is bit i of its word, so the bits of each byte change their order.
#![tactic(auto)]

ghost use Rattle.std.specs.Prelude.{◌≡◌, ◌+◌, ◌*◌, ◌/◌, ◌%◌, ◌≤◌, length};
ghost use Rattle.theory_laws.specs.Lists.{part};
ghost use Rattle.theory_laws.specs.Questions.{on_done};
ghost use Rattle.theory_laws.specs.Refusals.{answered};
ghost use Rattle.theory_field.specs.Words.{words};
ghost use Rattle.theory_gcm.specs.Blocks.{imported, exported};
ghost use Rattle.theory_gcm.specs.helpers.Mirrored.{turned};
ghost use Rattle.theory_gcm.specs.helpers.Hash.{hash_from};
ghost use Rattle.field_gf128.specs.Word.{word};
ghost use Rattle.field_multiples.specs.helpers.Multiples.{Room};
ghost use Rattle.field_blocks.specs.Block.{block};
ghost use Rattle.field_blocks.specs.Answers.{run_number, imported_run, exported_run, answer, hashed_of};

use field_gf128::Word;
use field_multiples::{Kernel, Table};
use theory_laws::Refusal;

// A block: bytes 0 to 7 and bytes 8 to 15, each a little-endian number.
#[repr(C)]
#[derive(Clone, Copy, Debug, PartialEq, Eq)]
pub struct Block {
    pub first: u64,
    pub second: u64,
}

// ---- one block

// The bits of each byte in the other order: halves of a byte change places, then quarters, then single bits.
fn mirror(x: u64) -> u64
    ensures { result ≡ turned 8 x }
{
    let by4 = ((x >> 4) & 0x0f0f_0f0f_0f0f_0f0f) ^ ((x & 0x0f0f_0f0f_0f0f_0f0f) << 4);
    let by2 = ((by4 >> 2) & 0x3333_3333_3333_3333) ^ ((by4 & 0x3333_3333_3333_3333) << 2);
    ((by2 >> 1) & 0x5555_5555_5555_5555) ^ ((by2 & 0x5555_5555_5555_5555) << 1)
}

// The same of the 16 bytes of a word.
fn mirror_word(w: Word) -> Word
    ensures { word result ≡ turned 16 (word w) }
{
    Word {
        lo: mirror(w.lo),
        hi: mirror(w.hi),
    }
}

// The word of a block.
pub fn import_block(b: Block) -> Word
    ensures { word result ≡ imported (block b) }
{
    mirror_word(Word {
        lo: b.first,
        hi: b.second,
    })
}

// The block of a word.
pub fn export_block(w: Word) -> Block
    ensures { block result ≡ exported (word w) }
{
    let m = mirror_word(w);
    Block {
        first: m.lo,
        second: m.hi,
    }
}

// ---- runs. `block_at`, the loops and the choice of a kernel are helpers: each requires the lengths that the entries ask for.

// The word of block v of a run.
fn block_at(blocks: &[u8], v: usize) -> Word
    requires { 16 * v + 16 ≤ length blocks.now }
    ensures { word result ≡ imported (part 16 (16 * v) blocks.now) }
{
    mirror_word(field_bytes::word_at(blocks, 16 * v))
}

// The questions for a run of so many bytes, and its words of so many u64.
#[tactic(auto, using(theory_laws::proofs::Questions::asks), unfolding(crate::specs::Answers::run_number))]
fn run_questions(bytes: usize, halves: usize) -> Result<(), Refusal>
    ensures { answered result ≡ run_number bytes halves }
{
    if bytes % 16 != 0 {
        return Err(Refusal::Length);
    }
    if halves != 2 * (bytes / 16) {
        return Err(Refusal::Length);
    }
    Ok(())
}

// The words of a run, once the questions are answered.
fn import_words(blocks: &[u8], out: &mut [u64])
    requires { length out.old ≡ 2 * (length blocks.now / 16) }
    ensures { words out.new ≡ imported_run blocks.now }
{
    let n = blocks.len() / 16;
    for v in 0..n {
        field_words::put(out, v, block_at(blocks, v));
    }
}

// The words of a run of blocks, into a buffer of their length. Refuses with 5 a run that is not whole blocks and a buffer of another length, which then
// stays.
pub fn import_run(blocks: &[u8], out: &mut [u64]) -> Result<(), Refusal>
    ensures value { answered result ≡ run_number (length blocks.now) (length out.old) }
    ensures out_after { words out.new ≡ on_done (answered result) (imported_run blocks.now) (words out.old) }
{
    run_questions(blocks.len(), out.len())?;
    import_words(blocks, out);
    Ok(())
}

// The blocks of words, once the questions are answered.
fn export_words(values: &[u64], out: &mut [u8])
    requires { (length out.old % 16 ≡ 0) × (length values.now ≡ 2 * (length out.old / 16)) }
    ensures { out.new ≡ exported_run (words values.now) }
{
    let n = values.len() / 2;
    let mut at = 0;
    for v in 0..n {
        let m = mirror_word(field_words::get(values, v));
        at = field_bytes::put_word(out, at, m);
    }
}

// The blocks of words, into a buffer of 16 bytes a word. Refuses with 5 an odd number of halves and a buffer of another length, which then stays.
pub fn export_run(values: &[u64], out: &mut [u8]) -> Result<(), Refusal>
    ensures value { answered result ≡ run_number (length out.old) (length values.now) }
    ensures out_after { out.new ≡ on_done (answered result) (exported_run (words values.now)) out.old }
{
    run_questions(out.len(), values.len())?;
    export_words(values, out);
    Ok(())
}

// ---- GHASH

// The hash of a run by the word of the key, whose multiples the table has, as a word.
fn ghash_by<const BITS: u64>(blocks: &[u8], by: Table<'_, BITS>) -> Word
    ensures { word result ≡ hash_from (word by.entry.factor) 0 (imported_run blocks.now) }
{
    let n = blocks.len() / 16;
    let mut y = Word { lo: 0, hi: 0 };
    for v in 0..n {
        let sum = field_gf128::add(y, block_at(blocks, v));
        y = by.times(sum);
    }
    y
}

// The same, by the kernel that is quickest for the run.
fn ghash_words(blocks: &[u8], h: Word, t: &mut [u64]) -> Word
    requires { Room t.old }
    ensures { word result ≡ hash_from (word h) 0 (imported_run blocks.now) }
{
    let n = blocks.len() / 16;
    match field_multiples::prepare(t, n, h) {
        Kernel::Nibbles => ghash_by::<4>(blocks, Table::of(t, h)),
        Kernel::Bytes => ghash_by::<8>(blocks, Table::of(t, h)),
    }
}

// GHASH of a run of blocks by a key. Refuses with 5 a run that is not whole blocks.
pub fn ghash(key: Block, blocks: &[u8]) -> Result<Block, Refusal>
    ensures { answer result ≡ hashed_of (block key) blocks.now }
{
    // Room for the products by the key, made before the question is put and aligned by a store: docs/DECISIONS.md, 54 and 58.
    let mut multiples = [0u64; 8192];
    let h = import_block(key);
    field_words::put(&mut multiples, 0, h);
    if blocks.len() % 16 != 0 {
        return Err(Refusal::Length);
    }
    let y = ghash_words(blocks, h, &mut multiples);
    Ok(export_block(y))
}
