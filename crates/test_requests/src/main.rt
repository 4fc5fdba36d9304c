// Request lines with as much room as they need: those of two files, answered in one call, and those of the standard input, read one by one. The lines ask
// for more than there is within the rooms of test_field and test_record, and have pieces that are read otherwise there.
#![tactic(auto)]

use std::alloc::{AllocError, Global};
use std::io;
use test_lines::answer::{Answer, no_room};
use test_lines::files::answer_files;
use test_lines::request::{Kept, Lent, Operation, Request, listed, read};

// Bytes, words and a list that are read; two inputs of bytes; a list and outputs that are written; outputs of one word, two words, 128 and a digest; the key.
const OPERATIONS: [Operation; 6] = [
    Operation {
        name: "lengths",
        letters: "nbwl",
    },
    Operation {
        name: "ends",
        letters: "bwl",
    },
    Operation {
        name: "both",
        letters: "bb",
    },
    Operation {
        name: "written",
        letters: "nLWWWBBB",
    },
    Operation {
        name: "sized",
        letters: "opcd",
    },
    Operation {
        name: "keyed",
        letters: "",
    },
];

// The last of a list; 0 where there is none.
fn last<T: Copy + Into<u64>>(list: &[T]) -> u64 {
    match list.last() {
        Some(item) => (*item).into(),
        None => 0,
    }
}

// A number, and how many bytes, halves of words and numbers there are.
fn lengths(request: &Request) -> Answer {
    let [number, ..] = request.numbers();
    Answer::Four(
        number as u64,
        request.bytes(0).len() as u64,
        request.words(0).len() as u64,
        request.list(0).len() as u64,
    )
}

// The last byte, half of a word and number.
fn ends(request: &Request) -> Answer {
    let number = request.list(0).last().copied().unwrap_or(0);
    Answer::Three(
        last(request.bytes(0)),
        last(request.words(0)),
        number as u64,
    )
}

// Of each of two inputs of bytes how many there are, and the last one.
fn both(request: &Request) -> Answer {
    let first = request.bytes(0);
    let second = request.bytes(1);
    Answer::Four(
        first.len() as u64,
        last(first),
        second.len() as u64,
        last(second),
    )
}

// Puts a number in all places of the list, and answers how many there are, of outputs too.
fn written(request: &Request, lent: &mut Lent) -> Answer {
    let [number, ..] = request.numbers();
    let list = listed(&mut lent.list);
    list.fill(number);
    Answer::Three(
        list.len() as u64,
        lent.words.len() as u64,
        lent.bytes.len() as u64,
    )
}

// How many halves there are in the outputs of words, and how many bytes in the digest.
fn sized(lent: &Lent) -> Answer {
    let halves = lent
        .words
        .iter()
        .fold(0u64, |sum, words| sum.saturating_add(words.len() as u64));
    let bytes = lent
        .bytes
        .iter()
        .fold(0u64, |sum, bytes| sum.saturating_add(bytes.len() as u64));
    Answer::Two(halves, bytes)
}

// Whether a key is set, and its last byte.
fn keyed(request: &Request) -> Answer {
    match request.key() {
        Some(key) => Answer::Two(1, last(&key)),
        None => Answer::Two(0, 0),
    }
}

// What a request is answered.
fn answer(_alloc: Global, request: &Request, lent: &mut Lent) -> Result<Answer, AllocError> {
    Ok(match request.name.as_str() {
        "lengths" => lengths(request),
        "ends" => ends(request),
        "both" => both(request),
        "written" => written(request, lent),
        "sized" => sized(lent),
        "keyed" => keyed(request),
        _ => no_room(),
    })
}

// Prints the name of the operation that a line asks for and the lengths of its inputs, or that it names none.
fn print_read(rt: &impl Print, request: Option<(Request, Lent)>) -> io::Result<()> {
    match request {
        Some((request, _)) => println!(rt; "{}{}", request.name, lengths(&request)),
        None => println!(rt; "no operation"),
    }
}

fn main(rt: HostRuntime) -> io::Result<()> {
    answer_files(&rt, &OPERATIONS, answer, &["lines.txt", "after.txt"])?;
    let alloc = rt.alloc();
    let mut kept = Kept::new(alloc);
    for line in rt.lines(alloc) {
        let line = line?;
        if kept.takes(alloc, line.as_str())? {
            println!(&rt; "taken")?;
        } else {
            print_read(&rt, read(alloc, &OPERATIONS, line.as_str(), &kept)?)?;
        }
    }
    Ok(())
}
