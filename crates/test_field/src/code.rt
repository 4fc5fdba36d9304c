// The code: code.rs. Codewords folded part way are in half_folded.
use test_lines::answer::{Answer, no_room};
use test_lines::request::{Lent, Request, first};
use test_lines::values::word;

pub fn derive(request: &Request, lent: &mut Lent) -> Answer {
    let [n, k, ..] = request.numbers();
    Answer::from(code_gamma::derive(n, k, request.bytes(0), first(&mut lent.words)))
}

pub fn encode(request: &Request, lent: &mut Lent) -> Answer {
    let [n, k, ..] = request.numbers();
    let codeword = first(&mut lent.words);
    Answer::from(code_codeword::encode(n, k, request.words(0), request.words(1), codeword))
}

// The length of a gamma's message, for domains of at most 200 bytes.
pub fn gamma_message(request: &Request, _lent: &mut Lent) -> Answer {
    let [n, k, j, i, ..] = request.numbers();
    let domain = request.bytes(0);
    if domain.len() > 200 {
        return no_room();
    }
    Answer::Two(0, code_gamma::message::size(n, k, domain, j, i) as u64)
}

pub fn codeword_block(request: &Request, lent: &mut Lent) -> Answer {
    let [n, k, eps, ..] = request.numbers();
    let out = first(&mut lent.words);
    Answer::from(code_parts::codeword_block(n, k, eps, request.words(0), request.words(1), out))
}

pub fn codeword_half(request: &Request, lent: &mut Lent) -> Answer {
    let [n, k, half, ..] = request.numbers();
    let out = first(&mut lent.words);
    Answer::from(code_parts::codeword_half(n, k, half, request.words(0), request.words(1), out))
}

pub fn fold_part(request: &Request, lent: &mut Lent) -> Answer {
    let [n, k, var, start, ..] = request.numbers();
    let r = word(request.words(0), 0);
    let out = first(&mut lent.words);
    Answer::from(code_parts::fold_part(n, k, var, r, start, request.words(1), out))
}
