// Ring switching: partial evaluations and the indicator of ring.rs, and both sides of its identities.
use crate::field::done_or_refused;
use field_gf128::Word;
use ring_identities::Sides;
use test_lines::answer::{Answer, number};
use test_lines::request::{Lent, Request, first, two};
use test_lines::values::{put_words, row};
use theory_laws::Refusal;

pub fn partial_evals(request: &Request, lent: &mut Lent) -> Answer {
    let [n, ..] = request.numbers();
    let partials = first(&mut lent.words);
    Answer::from(ring_partials::partial_evals(n, request.words(0), request.words(1), partials))
}

pub fn fold_partials(request: &Request, lent: &mut Lent) -> Answer {
    done_or_refused(
        lent,
        ring_partials::fold_partials(request.words(0), row(request.words(1))),
    )
}

pub fn materialize(request: &Request, lent: &mut Lent) -> Answer {
    let [n, ..] = request.numbers();
    let table = first(&mut lent.words);
    Answer::from(ring_indicator::materialize(n, request.words(0), row(request.words(1)), table))
}

pub fn eval_at(request: &Request, lent: &mut Lent) -> Answer {
    let [n, ..] = request.numbers();
    let found = ring_indicator::eval_at(
        n,
        request.words(0),
        row(request.words(1)),
        request.words(2),
    );
    done_or_refused(lent, found)
}

// Both sides or their refusal as the answer: then they are 0.
fn done_or_refused_sides(out: &mut [u64], found: Result<Sides, Refusal>) -> Answer {
    let number = number(&found);
    let zero = Word { lo: 0, hi: 0 };
    let sides = found.unwrap_or(Sides {
        left: zero,
        right: zero,
    });
    put_words(out, &[sides.left, sides.right]);
    Answer::One(number)
}

pub fn extension_sides(request: &Request, lent: &mut Lent) -> Answer {
    let [n, ..] = request.numbers();
    let (table, out) = two(&mut lent.words);
    let sides = ring_identities::extension_sides(
        n,
        request.words(0),
        request.words(1),
        row(request.words(2)),
        table,
    );
    done_or_refused_sides(out, sides)
}

pub fn fold_sides(request: &Request, lent: &mut Lent) -> Answer {
    let [n, ..] = request.numbers();
    let (table, out) = two(&mut lent.words);
    let sides = ring_identities::fold_sides(
        n,
        request.words(0),
        request.words(1),
        row(request.words(2)),
        table,
    );
    done_or_refused_sides(out, sides)
}
