// Levels, profiles and the parameters of seals, trees of levels and the last level: eval.rs, and docs/SPECIFICATION.md's `tail-list`.
use crate::key::{mode_of, set_of, trees_of};
use code_profile::{Parameters, Profile};
use test_lines::answer::{Answer, no_room};
use test_lines::request::{Lent, Request, first, listed, two};
use test_lines::values::{fill, put, word};

// The width of the trees of a level, by its length.
pub fn fold_tree_width(request: &Request, _lent: &mut Lent) -> Answer {
    let [set, length, ..] = request.numbers();
    Answer::One(code_level::fold_tree_width(set_of(set), length) as u64)
}

// The domain of a level, for levels below 100 and base domains of at most 503 bytes.
pub fn level_domain(request: &Request, lent: &mut Lent) -> Answer {
    let [level, ..] = request.numbers();
    let base = request.bytes(0);
    let mut out = [0u8; 512];
    if level >= 100 || base.len() > 503 {
        return no_room();
    }
    let end = code_level::level_domain(&mut out, base, level);
    put(first(&mut lent.bytes), &out);
    Answer::One(end as u64)
}

pub fn domain_length(request: &Request, _lent: &mut Lent) -> Answer {
    let [level, ..] = request.numbers();
    Answer::from(code_level::domain::level_domain_length(request.bytes(0), level))
}

pub fn domain_into(request: &Request, lent: &mut Lent) -> Answer {
    let [level, ..] = request.numbers();
    let out = first(&mut lent.bytes);
    Answer::from(code_level::domain::level_domain(request.bytes(0), level, out))
}

// A profile by its number, 0 being the Rust's default.
fn profile_of(number: usize) -> Profile {
    match number {
        1 => Profile::FastChunk,
        2 => Profile::Balanced,
        3 => Profile::CompactWrap,
        4 => Profile::DeepWrap,
        _ => Profile::FirstDefault,
    }
}

// What a seal names: a profile by its number, or, as number 5, none.
fn named(number: usize) -> Option<Profile> {
    if number == 5 {
        None
    } else {
        Some(profile_of(number))
    }
}

// k, the query count, the domain's length, and the domain with zeros after it.
fn done(lent: &mut Lent, p: Parameters) -> Answer {
    put(first(&mut lent.bytes), &p.domain);
    Answer::Three(p.k as u64, p.queries as u64, p.length as u64)
}

pub fn profile(request: &Request, lent: &mut Lent) -> Answer {
    let [number, ..] = request.numbers();
    done(lent, code_profile::parameters_of(profile_of(number)))
}

pub fn seal_parameters(request: &Request, lent: &mut Lent) -> Answer {
    let [number, older, ..] = request.numbers();
    done(
        lent,
        code_profile::seal_parameters(named(number), older != 0),
    )
}

pub fn writer_parameters(request: &Request, lent: &mut Lent) -> Answer {
    let [number, ..] = request.numbers();
    done(lent, code_profile::writer_parameters(named(number)))
}

pub fn commit(request: &Request, lent: &mut Lent) -> Answer {
    let [set, n, k, ..] = request.numbers();
    let (gammas, codeword) = two(&mut lent.words);
    Answer::from(code_commit::commit(
        trees_of(request, set),
        n,
        k,
        request.bytes(0),
        request.words(0),
        gammas,
        codeword,
        listed(&mut lent.list),
        first(&mut lent.bytes),
    ))
}

// All levels of a codeword, which stands at their front, by its challenges.
pub fn fold_levels(request: &Request, lent: &mut Lent) -> Answer {
    let [set, n, k, ..] = request.numbers();
    let (levels, half) = two(&mut lent.words);
    let (trees, roots) = two(&mut lent.bytes);
    put(levels, request.words(1));
    Answer::from(code_fold_levels::fold_levels(
        trees_of(request, set),
        n,
        k,
        request.bytes(0),
        request.words(0),
        levels,
        half,
        trees,
        roots,
    ))
}

pub fn next_part(request: &Request, lent: &mut Lent) -> Answer {
    let [n, k, level, start, ..] = request.numbers();
    let r = word(request.words(0), 0);
    let out = first(&mut lent.words);
    Answer::from(code_level_parts::next_part(n, k, level, r, start, request.words(1), out))
}

pub fn level_leaves(request: &Request, lent: &mut Lent) -> Answer {
    let [set, n, k, level, start] = request.numbers();
    Answer::from(code_level_parts::level_leaves(
        trees_of(request, set),
        n,
        k,
        level,
        request.bytes(0),
        start,
        request.words(0),
        first(&mut lent.bytes),
    ))
}

pub fn level_parents(request: &Request, lent: &mut Lent) -> Answer {
    let [n, k, level, height, ..] = request.numbers();
    Answer::from(code_level_parts::level_parents(
        mode_of(request),
        n,
        k,
        level,
        request.bytes(0),
        height,
        request.bytes(1),
        first(&mut lent.bytes),
    ))
}

pub fn level_tree(request: &Request, lent: &mut Lent) -> Answer {
    let [set, n, k, level, ..] = request.numbers();
    Answer::from(code_commit::level::level_tree(
        trees_of(request, set),
        n,
        k,
        level,
        request.bytes(0),
        request.words(0),
        first(&mut lent.bytes),
    ))
}

// n, k and the entries of the last level, 0 in a refusal.
pub fn tails(request: &Request, lent: &mut Lent) -> Answer {
    let found = export_tail_entries::tails(request.bytes(0));
    let out = first(&mut lent.words);
    match found {
        Ok(level) => {
            fill(out, &level.entries);
            Answer::Three(0, level.n as u64, level.k as u64)
        }
        Err(refusal) => {
            fill(out, &[]);
            Answer::Three(u64::from(refusal.number()), 0, 0)
        }
    }
}
