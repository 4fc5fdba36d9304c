// Codewords in use, with the list of coordinates that are still unfolded: L, a fold, and the conversion to the earlier reading.
use test_lines::answer::Answer;
use test_lines::request::{Lent, Request, first, listed};
use test_lines::values::{part, word};

// L of a list, of at most 32 numbers.
pub fn l_of(request: &Request, lent: &mut Lent) -> Answer {
    let [n, k, original, eps, ..] = request.numbers();
    let coordinates = part(request.list(0), 0, 32);
    let out = first(&mut lent.words);
    Answer::from(code_codeword::l_of(n, k, original, eps, coordinates, request.words(0), out))
}

pub fn fold(request: &Request, lent: &mut Lent) -> Answer {
    let [n, k, original, var, ..] = request.numbers();
    let r = word(request.words(0), 0);
    let coordinates = listed(&mut lent.list);
    let out = first(&mut lent.words);
    Answer::from(code_codeword::fold(n, k, original, var, r, coordinates, request.words(1), out))
}

pub fn earlier_reading(request: &Request, lent: &mut Lent) -> Answer {
    let [n, k, original, ..] = request.numbers();
    Answer::from(code_codeword::earlier_reading(n, k, original, listed(&mut lent.list)))
}
