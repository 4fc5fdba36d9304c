// A request: the operation that a line names, and what it is lent. A program has a table of its operations: of each its name, and a letter for each
// argument. `n` is a number; `w` words, `l` a list of numbers, `b` bytes; `L` is a list of numbers that is lent for writing; `W` and `B` are how many
// halves of words and bytes an output has. With no argument, at the end, `o` is an output of one word, `p` of two words, `c` of 128 words, `d` of a digest.
ghost use Rattle.std.specs.Prelude.{◌≡◌, ◌+◌, [], IsErr};

use crate::arguments::{Digits, Halves, Place};
use crate::values::{part, put};
use crate::{arguments, growing};
use std::alloc::{AllocError, Global};
use std::array;

// How many bytes there is room for that lines keep, with those of the line that is answered behind them.
const STORED: usize = 131072;

// How many numbers a list has room for that is lent for writing.
const LISTED: usize = 32;

// An operation of a program: its name, and the letters of its arguments.
#[derive(Clone, Copy)]
pub struct Operation {
    pub name: &'static str,
    pub letters: &'static str,
}

// What a program has room for: halves of its outputs of words, bytes of the others, and whether its lines may set a key of trees.
#[derive(Clone, Copy)]
pub struct Rooms {
    pub words: [usize; 2],
    pub bytes: [usize; 2],
    pub key: bool,
}

// A key of 32 bytes with its count; zeros for no key.
fn counted(key: &[u8]) -> [u8; 33] {
    let mut counted = [0u8; 33];
    if key.len() == 32 {
        put(&mut counted, key);
        counted[32] = 32;
    }
    counted
}

// What lines set for those after them: the bytes that they keep, at the front, and the key of trees, at the end. Behind the bytes that are kept lie those of
// the line that was read last. The key is 32 bytes, and after them how many of them a line gave: none is set where it gave none. With no rooms no more is
// stored than what lines have set.
#[derive(Clone, Drop)]
pub struct Kept {
    stored: Vec<u8>,
    end: usize,
    rooms: Rooms,
}

impl Kept {
    // Nothing is set, and there are no rooms: what lines set is stored as it comes.
    pub fn new(alloc: Global) -> Kept
        ensures { (result.stored.items ≡ []) × (result.end ≡ 0) }
    {
        Kept {
            stored: Vec::new(alloc),
            end: 0,
            rooms: Rooms {
                words: [0; 2],
                bytes: [0; 2],
                key: true,
            },
        }
    }

    // The bytes that lines keep.
    fn bytes(&self) -> &[u8] {
        part(self.stored.as_slice(), 0, self.end)
    }

    // The key with its count, or zeros.
    fn counted_key(&self) -> [u8; 33] {
        self.stored.last_chunk().copied().unwrap_or([0; 33])
    }

    // Keeps bytes more, and sets the key with its count.
    fn set(&mut self, more: &[u8], key: [u8; 33]) -> Result<(), AllocError>
        ensures { IsErr result → (self.new.stored.items ≡ self.old.stored.items) × (self.new.end ≡ self.old.end) }
    {
        let end = self.end.saturating_add(more.len());
        let size = end.saturating_add(33).max(self.stored.len());
        self.stored.resize(size, 0)?;
        let from = self.end.min(size);
        put(&mut self.stored.as_mut_slice()[from..], more);
        if let Some(place) = self.stored.last_chunk_mut::<33>() {
            *place = key;
        }
        self.end = end;
        Ok(())
    }

    // Whether a line asks for nothing: it keeps bytes or sets the key, is empty or begins with `# `. Where memory runs out, all stays as it was.
    pub fn takes(&mut self, alloc: Global, line: &str) -> Result<bool, AllocError>
        ensures { IsErr result → (self.new.stored.items ≡ self.old.stored.items) × (self.new.end ≡ self.old.end) }
    {
        let (name, text) = line.split_once(' ').unwrap_or((line, ""));
        match name {
            "=" => {
                let more = growing::bytes(alloc, Digits::Bytes, text, self.bytes())?;
                let key = self.counted_key();
                self.set(more.as_slice(), key)?;
                Ok(true)
            }
            "key" => {
                let key = growing::bytes(alloc, Digits::Bytes, text, self.bytes())?;
                self.set(&[], counted(key.as_slice()))?;
                Ok(true)
            }
            _ => Ok(name == "#" || name == ""),
        }
    }

    // Nothing is set, within the rooms of a program.
    pub fn within(alloc: Global, rooms: Rooms) -> Result<Kept, AllocError> {
        let key = if rooms.key { 33 } else { 0 };
        Ok(Kept {
            stored: vec![in alloc; 0u8; STORED + key]?,
            end: 0,
            rooms,
        })
    }

    // Puts the bytes of an argument at a place, and answers the next place.
    fn put(&mut self, from: usize, text: &[u8]) -> usize {
        arguments::put_bytes(self.stored.as_mut_slice(), from, text)
    }

    // Sets the key to the bytes of an argument: zeros follow where they are fewer, and what is more is dropped.
    fn set_key(&mut self, text: &[u8]) {
        let end = self.put(self.end, text);
        let given = part(self.stored.as_slice(), self.end, end);
        let mut key = [0u8; 33];
        put(&mut key, given);
        key[32] = given.len().min(33) as u8;
        if let Some(place) = self.stored.last_chunk_mut::<33>() {
            *place = key;
        }
    }

    // Whether a line asks for nothing, within rooms: it keeps bytes or sets the key, or it has no name, or one of those for lines that are passed over.
    pub fn takes_within(&mut self, line: &[u8]) -> bool {
        let mut texts = line.split(|c| *c == b' ');
        let name = texts.next().unwrap_or(&[]);
        let text = texts.next().unwrap_or(&[]);
        match name {
            b"=" => {
                self.end = self.put(self.end, text);
                true
            }
            b"key" if self.rooms.key => {
                self.set_key(text);
                true
            }
            b"" | b"#" | b"none" => true,
            _ => false,
        }
    }
}

// What an operation is lent for reading, in the order of the arguments: numbers, lists of numbers, words by their places in a row of halves, and bytes by
// their places in what is stored; and the key that is set.
#[derive(Clone, Drop)]
pub struct Request {
    pub name: String,
    numbers: Vec<usize>,
    lists: Vec<Vec<usize>>,
    halves: Halves,
    words: Vec<Place>,
    bytes: Vec<Place>,
    kept: Kept,
}

impl Request {
    // The first five numbers; 0 for what is not there.
    pub fn numbers(&self) -> [usize; 5] {
        array::from_fn(|i| self.numbers.get(i).copied().unwrap_or(0))
    }

    // List i of numbers; an empty one where there is none.
    pub fn list(&self, i: usize) -> &[usize] {
        match self.lists.get(i) {
            Some(list) => list.as_slice(),
            None => &[],
        }
    }

    // Input i of those that are words; an empty one where there is none.
    pub fn words(&self, i: usize) -> &[u64] {
        match self.words.get(i) {
            Some(place) => self.halves.at(*place),
            None => &[],
        }
    }

    // Input i of those that are bytes; an empty one where there is none.
    pub fn bytes(&self, i: usize) -> &[u8] {
        match self.bytes.get(i) {
            Some(place) => part(self.kept.stored.as_slice(), place.from, place.to),
            None => &[],
        }
    }

    // Changes byte j of input i of those that are bytes.
    pub fn set_byte(&mut self, i: usize, j: usize, byte: u8) {
        if let Some(place) = self.bytes.get(i) {
            if let Some(old) = self.kept.stored.get_mut(place.from.wrapping_add(j)) {
                *old = byte;
            }
        }
    }

    // The key of trees, in a program whose lines may set one; none where none is set.
    pub fn key(&self) -> Option<[u8; 32]> {
        match self.kept.stored.split_last() {
            Some((given, rest)) if *given != 0 => rest.last_chunk::<32>().copied(),
            _ => None,
        }
    }

    // Puts words or a list of numbers behind those before.
    fn put_halves(&mut self, kind: Digits, text: &[u8]) -> Result<Place, AllocError> {
        self.halves.put(kind, text, self.kept.stored.as_slice())
    }

    // An input more of words, by halves.
    fn push_words(&mut self, halves: &[u64]) -> Result<(), AllocError> {
        let place = self.halves.push(halves)?;
        self.words.push(place)?;
        Ok(())
    }

    // An input more of bytes.
    fn push_bytes(&mut self, bytes: &[u8]) -> Result<(), AllocError> {
        let from = self.kept.stored.len();
        self.kept.stored.extend_from_slice(bytes)?;
        let to = self.kept.stored.len();
        self.bytes.push(Place { from, to })?;
        Ok(())
    }

    // The key behind all inputs.
    fn push_key(&mut self, key: [u8; 33]) -> Result<(), AllocError> {
        self.kept.stored.extend_from_slice(&key)
    }

    // What lines have set, once a request is answered that was read within rooms.
    pub fn into_kept(self) -> Kept {
        self.kept
    }
}

// What an operation is lent for writing: a list of numbers, with what it holds before, and outputs.
#[derive(Drop)]
pub struct Lent {
    pub list: Option<Vec<usize>>,
    pub words: Vec<Vec<u64>>,
    pub bytes: Vec<Vec<u8>>,
}

// As many as there is room for in the next output, of those that rooms are for.
fn fitting(rooms: [usize; 2], outputs: usize, count: usize) -> usize {
    rooms.get(outputs).copied().unwrap_or(0).min(count)
}

impl Lent {
    // An output of words more, of so many halves.
    fn push_words(&mut self, alloc: Global, halves: usize) -> Result<(), AllocError> {
        let output = vec![in alloc; 0xa5a5_a5a5_a5a5_a5a5u64; halves]?;
        self.words.push(output)?;
        Ok(())
    }

    // The same, of as many as rooms allow.
    fn push_words_within(
        &mut self,
        alloc: Global,
        rooms: Rooms,
        halves: usize,
    ) -> Result<(), AllocError> {
        let halves = fitting(rooms.words, self.words.len(), halves);
        self.push_words(alloc, halves)
    }

    // An output of bytes more, of so many.
    fn push_bytes(&mut self, alloc: Global, count: usize) -> Result<(), AllocError> {
        let output = vec![in alloc; 0xa5u8; count]?;
        self.bytes.push(output)?;
        Ok(())
    }

    // The same, of as many as rooms allow.
    fn push_bytes_within(
        &mut self,
        alloc: Global,
        rooms: Rooms,
        count: usize,
    ) -> Result<(), AllocError> {
        let count = fitting(rooms.bytes, self.bytes.len(), count);
        self.push_bytes(alloc, count)
    }
}

// The first two outputs; empty ones where there are fewer.
pub fn two<T>(outputs: &mut Vec<Vec<T>>) -> (&mut [T], &mut [T]) {
    match outputs.as_mut_slice() {
        [first, second, ..] => (first.as_mut_slice(), second.as_mut_slice()),
        [first] => (first.as_mut_slice(), &mut []),
        [] => (&mut [], &mut []),
    }
}

// The first output; an empty one where there is none.
pub fn first<T>(outputs: &mut Vec<Vec<T>>) -> &mut [T] {
    match outputs.as_mut_slice() {
        [first, ..] => first.as_mut_slice(),
        [] => &mut [],
    }
}

// The list that is lent; an empty one where there is none.
pub fn listed(list: &mut Option<Vec<usize>>) -> &mut [usize] {
    match list {
        Some(list) => list.as_mut_slice(),
        None => &mut [],
    }
}

// The first numbers of those that halves are, at most so many.
fn numbers_of(alloc: Global, halves: &[u64], most: usize) -> Result<Vec<usize>, AllocError> {
    let mut numbers = Vec::new(alloc);
    for half in halves.iter().take(most) {
        numbers.push(*half as usize)?;
    }
    Ok(numbers)
}

// The operation that a line names.
pub fn named<'a>(operations: &'a [Operation], line: &[u8]) -> Option<&'a Operation> {
    let name = line.split(|c| *c == b' ').next().unwrap_or(&[]);
    operations
        .iter()
        .find(|operation| operation.name.as_bytes() == name)
}

// What a line of a program with these operations asks for, and is lent; none where it names no operation.
pub fn read(
    alloc: Global,
    operations: &[Operation],
    line: &str,
    kept: &Kept,
) -> Result<Option<(Request, Lent)>, AllocError> {
    let mut texts = line.split(' ');
    let name = texts.next().unwrap_or("");
    let Some(operation) = operations.iter().find(|operation| operation.name == name) else {
        return Ok(None);
    };
    let mut request = Request {
        name: String::from_str(alloc, name)?,
        numbers: Vec::new(alloc),
        lists: Vec::new(alloc),
        halves: Halves::new(alloc),
        words: Vec::new(alloc),
        bytes: Vec::new(alloc),
        kept: Kept::new(alloc),
    };
    let mut lent = Lent {
        list: None,
        words: Vec::new(alloc),
        bytes: Vec::new(alloc),
    };
    for letter in operation.letters.chars() {
        let text = texts.next().unwrap_or("");
        let number = growing::number(text) as usize;
        match letter {
            'l' => request.lists.push(growing::numbers(alloc, text)?)?,
            'w' => request.push_words(growing::words(alloc, text, kept.bytes())?.as_slice())?,
            'b' => {
                let bytes = growing::bytes(alloc, Digits::Bytes, text, kept.bytes())?;
                request.push_bytes(bytes.as_slice())?;
            }
            'L' => lent.list = Some(growing::numbers(alloc, text)?),
            'W' => lent.push_words(alloc, number)?,
            'B' => lent.push_bytes(alloc, number)?,
            'o' => lent.push_words(alloc, 2)?,
            'p' => lent.push_words(alloc, 4)?,
            'c' => lent.push_words(alloc, 256)?,
            'd' => lent.push_bytes(alloc, 32)?,
            _ => request.numbers.push(number)?,
        }
    }
    request.push_key(kept.counted_key())?;
    Ok(Some((request, lent)))
}

// What a line asks for that names an operation, and is lent, within rooms. Its bytes lie behind those that are kept.
pub fn read_within(
    alloc: Global,
    operation: &Operation,
    line: &[u8],
    kept: Kept,
) -> Result<(Request, Lent), AllocError> {
    let rooms = kept.rooms;
    let mut end = kept.end;
    let mut request = Request {
        name: String::from_str(alloc, operation.name)?,
        numbers: Vec::new(alloc),
        lists: Vec::new(alloc),
        halves: Halves::new(alloc),
        words: Vec::new(alloc),
        bytes: Vec::new(alloc),
        kept,
    };
    let mut lent = Lent {
        list: None,
        words: Vec::new(alloc),
        bytes: Vec::new(alloc),
    };
    let mut texts = line.split(|c| *c == b' ').skip(1);
    for letter in operation.letters.chars() {
        let text = texts.next().unwrap_or(&[]);
        let number = arguments::number(text);
        match letter {
            'l' => {
                let place = request.put_halves(Digits::Numbers, text)?;
                let list = numbers_of(alloc, request.halves.at(place), usize::MAX)?;
                request.lists.push(list)?;
            }
            'w' => {
                let place = request.put_halves(Digits::Words, text)?;
                request.words.push(place)?;
            }
            'b' => {
                let from = end;
                end = request.kept.put(from, text);
                request.bytes.push(Place { from, to: end })?;
            }
            'L' => {
                let place = request.put_halves(Digits::Numbers, text)?;
                lent.list = Some(numbers_of(alloc, request.halves.at(place), LISTED)?);
            }
            'W' => lent.push_words_within(alloc, rooms, number)?,
            'B' => lent.push_bytes_within(alloc, rooms, number)?,
            'o' => lent.push_words_within(alloc, rooms, 2)?,
            'p' => lent.push_words_within(alloc, rooms, 4)?,
            'c' => lent.push_words_within(alloc, rooms, 256)?,
            'd' => lent.push_bytes_within(alloc, rooms, 32)?,
            _ => request.numbers.push(number)?,
        }
    }
    Ok((request, lent))
}
