// Blocks of SP 800-38D: words taken from them and back, one by one and in runs, and GHASH.
use bytes_numbers::number_at;
use field_blocks::Block;
use test_lines::answer::{Answer, number};
use test_lines::request::{Lent, Request, first};
use test_lines::values::{put, put_words, word};

// The block in the first 16 bytes of a slice; zeros where it has fewer.
fn block_in(s: &[u8]) -> Block {
    if s.len() < 16 {
        return Block {
            first: 0,
            second: 0,
        };
    }
    Block {
        first: number_at(s, 0, 8),
        second: number_at(s, 8, 8),
    }
}

fn put_block(out: &mut [u8], block: Block) {
    for (place, byte) in out.iter_mut().zip(
        block
            .first
            .to_le_bytes()
            .iter()
            .chain(block.second.to_le_bytes().iter()),
    ) {
        *place = *byte;
    }
}

pub fn import_block(request: &Request, lent: &mut Lent) -> Answer {
    let word = field_blocks::import_block(block_in(request.bytes(0)));
    put_words(first(&mut lent.words), &[word]);
    Answer::One(0)
}

pub fn export_block(request: &Request, lent: &mut Lent) -> Answer {
    let block = field_blocks::export_block(word(request.words(0), 0));
    put_block(first(&mut lent.bytes), block);
    Answer::One(0)
}

pub fn import_run(request: &Request, lent: &mut Lent) -> Answer {
    Answer::from(field_blocks::import_run(request.bytes(0), first(&mut lent.words)))
}

pub fn export_run(request: &Request, lent: &mut Lent) -> Answer {
    Answer::from(field_blocks::export_run(request.words(0), first(&mut lent.bytes)))
}

pub fn ghash(request: &Request, lent: &mut Lent) -> Answer {
    let hashed = field_blocks::ghash(block_in(request.bytes(0)), request.bytes(1));
    let number = number(&hashed);
    put_block(first(&mut lent.bytes), hashed.unwrap_or(block_in(&[])));
    Answer::One(number)
}
