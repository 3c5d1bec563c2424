// Runs the script on standard input, of which it takes the first 65,536 bytes, and writes the finished lines; then, where
// there is a fault, its number and place.
#![tactic(auto)]

use std::io;
use std::io::{Read, Write};

const LIMIT: usize = 65536;

fn main(rt: HostRuntime) -> io::Result<()> {
    let mut script = Vec::new(rt.alloc());
    rt.stdin().take(LIMIT as u64).read_to_end(&mut script)?;
    let mut out = vec![in rt.alloc(); 0u8; LIMIT]?;
    let ran = runner::run::run(&script, &mut out);
    rt.stdout().write_all(&out[..ran.written])?;
    if let Some(found) = ran.fault {
        println!(rt; "{found}")?;
    }
    Ok(())
}
