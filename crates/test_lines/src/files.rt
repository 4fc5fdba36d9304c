// The files of a test program: every line of them is answered.
use crate::answer::{Answer, no_room};
use crate::request::{Kept, Lent, Operation, Request, Rooms};
use crate::{answer, request};
use export_text::read_full;
use std::alloc::{AllocError, Global};
use std::rt::Files;
use std::{fs, io};

// Within the rooms of a program: how many bytes of a file there is room for.
const FILE: usize = 262144;

// What a line is answered that names an operation, within rooms: the numbers of `run`, of what it asks for. What lines have set comes back.
fn answered_within<F: Fn(Global, &Request, &mut Lent) -> Result<Answer, AllocError>>(
    alloc: Global,
    operation: &Operation,
    run: F,
    number: usize,
    line: &[u8],
    kept: Kept,
) -> Result<(String, Kept), AllocError>
    requires { F.IsAlwaysCallable run }
{
    let (request, mut lent) = request::read_within(alloc, operation, line, kept)?;
    let numbers = run(alloc, &request, &mut lent)?;
    let text = answer::line(alloc, number, &numbers, &lent)?;
    Ok((text, request.into_kept()))
}

// Answers every request of a text, whose lines are numbered and end at a byte 10, within rooms.
fn answer_lines_within<
    R: Print + AllocGlobal,
    F: Fn(Global, &Request, &mut Lent) -> Result<Answer, AllocError>,
>(rt: &R, operations: &[Operation], rooms: Rooms, run: F, text: &[u8]) -> io::Result<()>
    requires { F.IsAlwaysCallable run }
{
    let alloc = rt.alloc();
    let mut kept = Kept::within(alloc, rooms)?;
    for (line, number) in text.split_inclusive(|c| *c == b'\n').zip(1..usize::MAX) {
        let line = line.strip_suffix(b"\n").unwrap_or(line);
        if kept.takes_within(line) {
            continue;
        }
        match request::named(operations, line) {
            Some(operation) => {
                let (text, after) = answered_within(alloc, operation, &run, number, line, kept)?;
                kept = after;
                println!(rt; "{text}")?;
            }
            None => println!(rt; "{number}{}", no_room())?,
        }
    }
    Ok(())
}

// As much of a file as there is room for; fails where it cannot be opened or read.
fn read_file<R: Files + AllocGlobal>(rt: &R, name: &str) -> io::Result<Vec<u8>> {
    let mut text = vec![in rt.alloc(); 0u8; FILE]?;
    let count = read_full(&mut fs::open(rt, name)?, text.as_mut_slice())?;
    text.truncate(count);
    Ok(text)
}

// Prints the name of each file, and answers its requests within rooms, as far as there is room for a file; fails where a file cannot be read or a write
// fails, and where memory runs out.
pub fn answer_files_within<
    R: Files + Print + AllocGlobal,
    F: Fn(Global, &Request, &mut Lent) -> Result<Answer, AllocError>,
>(rt: &R, operations: &[Operation], rooms: Rooms, run: F, names: &[&str]) -> io::Result<()>
    requires { F.IsAlwaysCallable run }
{
    for name in names {
        println!(rt; "{name}")?;
        let text = read_file(rt, name)?;
        answer_lines_within(rt, operations, rooms, &run, text.as_slice())?;
    }
    Ok(())
}

// What a line is answered: the numbers of `run`, of what it asks for.
fn answered<F: Fn(Global, &Request, &mut Lent) -> Result<Answer, AllocError>>(
    alloc: Global,
    operations: &[Operation],
    run: F,
    number: usize,
    line: &str,
    kept: &Kept,
) -> Result<String, AllocError>
    requires { F.IsAlwaysCallable run }
{
    match request::read(alloc, operations, line, kept)? {
        Some((request, mut lent)) => {
            let numbers = run(alloc, &request, &mut lent)?;
            answer::line(alloc, number, &numbers, &lent)
        }
        None => format!(in alloc; "{number}{}", no_room()),
    }
}

// Answers every request of a text, whose lines are numbered.
fn answer_lines<
    R: Print + AllocGlobal,
    F: Fn(Global, &Request, &mut Lent) -> Result<Answer, AllocError>,
>(rt: &R, operations: &[Operation], run: F, text: &str) -> io::Result<()>
    requires { F.IsAlwaysCallable run }
{
    let alloc = rt.alloc();
    let mut kept = Kept::new(alloc);
    for (line, number) in text.lines().zip(1..usize::MAX) {
        if !kept.takes(alloc, line)? {
            println!(rt;
                "{}",
                answered(alloc, operations, &run, number, line, &kept)?
            )?;
        }
    }
    Ok(())
}

// Prints the name of each file, and answers its requests; fails where a file cannot be read or a write fails, and where memory runs out.
pub fn answer_files<
    R: Files + Print + AllocGlobal,
    F: Fn(Global, &Request, &mut Lent) -> Result<Answer, AllocError>,
>(rt: &R, operations: &[Operation], run: F, names: &[&str]) -> io::Result<()>
    requires { F.IsAlwaysCallable run }
{
    for name in names {
        println!(rt; "{name}")?;
        let text = fs::read_to_string(rt, *name)?;
        answer_lines(rt, operations, &run, text.as_str())?;
    }
    Ok(())
}
