// Blocks of SP 800-38D as words, and GHASH.
ghost use Rattle.std.specs.Prelude.{◌≡◌, length};
ghost use Rattle.theory_laws.specs.Questions.{on_done};
ghost use Rattle.theory_field.specs.Words.{words};
ghost use Rattle.theory_gcm.specs.Blocks.{imported, exported};
ghost use Rattle.field_gf128.specs.Word.{word};
ghost use Rattle.field_blocks.specs.Block.{block};
ghost use Rattle.field_blocks.specs.Answers.{run_number, imported_run, exported_run, hashed_of};
ghost use Rattle.export_dequmlo.specs.Answers.{hashed};

use export_dequmlo::blocks::Hashed;
use field_blocks::Block;
use field_gf128::Word;

// The word of a block.
#[unsafe(no_mangle)]
pub extern "C" fn dequmlo_import_block(b: Block) -> Word
    ensures { word result ≡ imported (block b) }
{
    export_dequmlo::blocks::dequmlo_import_block(b)
}

// The block of a word.
#[unsafe(no_mangle)]
pub extern "C" fn dequmlo_export_block(w: Word) -> Block
    ensures { block result ≡ exported (word w) }
{
    export_dequmlo::blocks::dequmlo_export_block(w)
}

// The words of a run of blocks, into a buffer of their length: 5.
#[unsafe(no_mangle)]
pub extern "C" fn dequmlo_import_blocks(blocks: &[u8], out: &mut [u64]) -> u32
    ensures value { result ≡ run_number (length blocks.now) (length out.old) }
    ensures out_after { words out.new ≡ on_done result (imported_run blocks.now) (words out.old) }
{
    export_dequmlo::blocks::dequmlo_import_blocks(blocks, out)
}

// The blocks of words, into a buffer of 16 bytes a word: 5.
#[unsafe(no_mangle)]
pub extern "C" fn dequmlo_export_blocks(values: &[u64], out: &mut [u8]) -> u32
    ensures value { result ≡ run_number (length out.old) (length values.now) }
    ensures out_after { out.new ≡ on_done result (exported_run (words values.now)) out.old }
{
    export_dequmlo::blocks::dequmlo_export_blocks(values, out)
}

// GHASH of a run of blocks by a key: 5.
#[unsafe(no_mangle)]
pub extern "C" fn dequmlo_ghash(key: Block, blocks: &[u8]) -> Hashed
    ensures { hashed result ≡ hashed_of (block key) blocks.now }
{
    export_dequmlo::blocks::dequmlo_ghash(key, blocks)
}
