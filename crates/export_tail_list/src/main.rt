// The program `tail-list` (SPECIFICATION 11): reads its input from standard input, at most one byte more than the longest that is not refused,
// and prints what `tail` finds in it: `refused` and the number; or n and k, and then each entry.
#![tactic(auto)]

use export_text::read_full;
use std::io;

fn main(rt: HostRuntime) -> io::Result<()> {
    let mut input = [0u8; 4227];
    let count = read_full(&mut rt.stdin(), &mut input)?;
    match export_tail_entries::tails(&input[..count]) {
        Ok(level) => print!(&rt; "{level}"),
        Err(refusal) => println!(&rt; "refused {}", refusal.number()),
    }
}
