// For now: what three pictures of one small field cost.
#![tactic(auto)]

use sample::FIELD;
use std::io;

// One picture and what it costs, on a line.
fn say(rt: &impl Print, picture: &[u32]) -> io::Result<()> {
    print!(rt; "picture")?;
    for value in picture {
        print!(rt; " {value}")?;
    }
    match FIELD.picture_cost(picture) {
        Ok(cost) => println!(rt; " costs {cost}"),
        Err(refusal) => println!(rt; " {refusal}"),
    }
}

fn main(rt: HostRuntime) -> io::Result<()> {
    say(&rt, &[0, 0, 5, 0, 0])?;
    say(&rt, &[0, 0, 4, 0, 0])?;
    say(&rt, &[0, 0, 0, 0, 0])
}
