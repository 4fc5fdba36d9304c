// Words and tables of words: gf128.rs, pack.rs, eq.rs, and runs of words by one word.
use field_gf128::Word;
use test_lines::answer::{Answer, no_room, number};
use test_lines::request::{Lent, Request, first};
use test_lines::values::{fill, put_words, row, word};
use theory_laws::Refusal;

// A word as the answer.
fn done(lent: &mut Lent, w: Word) -> Answer {
    put_words(first(&mut lent.words), &[w]);
    Answer::One(0)
}

// A word or its refusal as the answer: then the word is 0.
pub fn done_or_refused(lent: &mut Lent, found: Result<Word, Refusal>) -> Answer {
    let number = number(&found);
    done(lent, found.unwrap_or(Word { lo: 0, hi: 0 }));
    Answer::One(number)
}

pub fn add(request: &Request, lent: &mut Lent) -> Answer {
    let sum = field_gf128::add(word(request.words(0), 0), word(request.words(1), 0));
    done(lent, sum)
}

pub fn mul(request: &Request, lent: &mut Lent) -> Answer {
    let product = field_gf128::mul(word(request.words(0), 0), word(request.words(1), 0));
    done(lent, product)
}

pub fn square(request: &Request, lent: &mut Lent) -> Answer {
    done(lent, field_gf128::square(word(request.words(0), 0)))
}

pub fn square_by_table(request: &Request, lent: &mut Lent) -> Answer {
    done(
        lent,
        field_gf128::square_by_table(word(request.words(0), 0)),
    )
}

pub fn inv(request: &Request, lent: &mut Lent) -> Answer {
    done_or_refused(lent, field_gf128::inv(word(request.words(0), 0)))
}

pub fn phi_c(request: &Request, lent: &mut Lent) -> Answer {
    done(
        lent,
        field_pack::phi_c(word(request.words(0), 0), row(request.words(1))),
    )
}

pub fn phi_tab(request: &Request, lent: &mut Lent) -> Answer {
    let table = field_pack::phi_tab(row(request.words(1)));
    done(
        lent,
        field_pack::phi_tab_apply(&table, word(request.words(0), 0)),
    )
}

pub fn eq_coefficients(request: &Request, lent: &mut Lent) -> Answer {
    let coefficients = field_pack::eq_coefficients(row(request.words(0)));
    put_words(first(&mut lent.words), &coefficients);
    Answer::One(0)
}

pub fn pack_table(request: &Request, lent: &mut Lent) -> Answer {
    Answer::from(field_pack::pack_table(request.bytes(0), first(&mut lent.words)))
}

pub fn eq_table(request: &Request, lent: &mut Lent) -> Answer {
    let [n, ..] = request.numbers();
    Answer::from(field_equality::eq_table(n, request.words(0), first(&mut lent.words)))
}

// A run times a word, where it is whole words.
pub fn mul_run(request: &Request, lent: &mut Lent) -> Answer {
    let run = first(&mut lent.words);
    fill(run, request.words(0));
    if run.len() % 2 != 0 {
        return no_room();
    }
    let mut table = [0u64; 8192];
    field_runs::scale(run, word(request.words(1), 0), &mut table);
    Answer::One(0)
}

// y + r × x, where both are whole words and of one length.
pub fn axpy_run(request: &Request, lent: &mut Lent) -> Answer {
    let y = first(&mut lent.words);
    let x = request.words(1);
    fill(y, request.words(0));
    if y.len() % 2 != 0 || x.len() != y.len() {
        return no_room();
    }
    let mut table = [0u64; 8192];
    field_runs::axpy(y, x, word(request.words(2), 0), &mut table);
    Answer::One(0)
}
