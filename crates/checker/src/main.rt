// For now: what the checker says of three sheets for pictures of one small field. The first sheet is right; the second
// lacks a flow from the higher place to the lower; the third is one for the first picture, offered for another.
#![tactic(auto)]

use sample::FIELD;
use sheet::check;
use std::io;

// The word of a sheet for a picture, on a line.
fn say(rt: &HostRuntime, picture: &[u32], flows: &[u32]) -> io::Result<()> {
    match check(rt.alloc(), FIELD, picture, flows) {
        Ok(cost) => println!(rt; "cheapest {cost}"),
        Err(objection) => println!(rt; "{objection}"),
    }
}

fn main(rt: HostRuntime) -> io::Result<()> {
    say(&rt, &[0, 0, 4, 0, 0], &[0, 0, 0, 1, 1, 0, 0, 0])?;
    say(&rt, &[0, 0, 4, 0, 0], &[0, 0, 0, 1, 0, 0, 0, 0])?;
    say(&rt, &[0, 0, 5, 0, 0], &[0, 0, 0, 1, 1, 0, 0, 0])
}
