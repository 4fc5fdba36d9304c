// Answers as C has them: the number, and beside it what is 0 where the number is not.
use field_blocks::Block;
use field_gf128::Word;
use theory_laws::Refusal;

// The number of an answer: 0 where the call is done, else that of its refusal.
pub fn number<T>(answer: &Result<T, Refusal>) -> u32 {
    match answer {
        Ok(_) => 0,
        Err(refusal) => refusal.number(),
    }
}

// A number, and a word that is 0 where the number is not.
#[repr(C)]
#[derive(Clone, Copy)]
pub struct NumberedWord {
    pub number: u32,
    pub word: Word,
}

impl From<Result<Word, Refusal>> for NumberedWord {
    fn from(answer: Result<Word, Refusal>) -> NumberedWord {
        NumberedWord {
            number: number(&answer),
            word: answer.unwrap_or(Word { lo: 0, hi: 0 }),
        }
    }
}

// A number, and a block that is 0 where the number is not.
#[repr(C)]
#[derive(Clone, Copy)]
pub struct NumberedBlock {
    pub number: u32,
    pub block: Block,
}

// A number, and a digest that is 0 where the number is not.
#[repr(C)]
#[derive(Clone, Copy)]
pub struct NumberedDigest {
    pub number: u32,
    pub bytes: [u8; 32],
}

impl From<Result<[u8; 32], Refusal>> for NumberedDigest {
    fn from(answer: Result<[u8; 32], Refusal>) -> NumberedDigest {
        NumberedDigest {
            number: number(&answer),
            bytes: answer.unwrap_or([0; 32]),
        }
    }
}
