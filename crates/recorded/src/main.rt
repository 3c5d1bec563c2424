// Runs recorded scripts and compares what they print with the recorded lines. Standard input has for each script the
// line `script` with its bytes in hexadecimal, and below it the lines that are expected.
#![tactic(auto)]

use hex::FromHex;
use runner::run::run;
use std::alloc::{AllocError, Global};
use std::io::Read;

const LIMIT: usize = 65536;

// A recorded script, and the lines that are expected of it; no script for lines that stand before the first.
#[derive(Drop)]
struct Case {
    script: Option<Vec<u8>>,
    expected: String,
}

// How many scripts were run, and how many cases printed something else.
#[derive(Default, Drop)]
struct Tally {
    scripts: usize,
    differ: usize,
}

// The bytes that the digits spell, two to a byte. What is no digit is passed over; a last odd digit is left out. No text of
// the digits alone is made, since a line may be as long as the whole input.
fn bytes_of(heap: Global, text: &str) -> anyhow::Result<Vec<u8>> {
    let mut bytes = Vec::new(heap);
    let mut high = None;
    // a `for`, since each push may run out of memory
    for digit in text.bytes() {
        if !matches!(digit, b'0'..=b'9' | b'A'..=b'F') {
            continue;
        }
        match high.take() {
            None => high = Some(digit),
            Some(first) => {
                let [byte] = <[u8; 1]>::from_hex([first, digit])?;
                bytes.push(byte)?;
            }
        }
    }
    Ok(bytes)
}

// What channel-run prints for a script.
fn printed(heap: Global, script: &[u8]) -> Result<String, AllocError> {
    let mut out = vec![in heap; 0u8; LIMIT]?;
    let ran = run(script, &mut out);
    let mut text = String::from_utf8_lossy(heap, &out[..ran.written])?;
    if let Some(found) = ran.fault {
        text.push_str(format!(in heap; "{found}\n")?.as_str())?;
    }
    Ok(text)
}

impl Tally {
    // Runs a case's script, and counts whether it prints what is expected.
    fn compare(&mut self, heap: Global, case: &Case) -> Result<(), AllocError> {
        let given = match &case.script {
            Some(script) => {
                self.scripts = self.scripts.saturating_add(1);
                printed(heap, script.as_slice())?
            }
            None => String::new(heap),
        };
        if given != case.expected {
            self.differ = self.differ.saturating_add(1);
        }
        Ok(())
    }
}

// Runs each case as soon as its last line is read, so that one is held at a time.
fn replay(heap: Global, text: &str) -> anyhow::Result<Tally> {
    let mut tally = Tally::default();
    let mut case = Case {
        script: None,
        expected: String::new(heap),
    };
    for line in text.lines() {
        if line.starts_with("#") {
            continue;
        }
        match line.strip_prefix("script") {
            Some(digits) => {
                tally.compare(heap, &case)?;
                // given up before the next is spelled
                case.script = None;
                case.script = Some(bytes_of(heap, digits)?);
                case.expected.clear();
            }
            None => {
                case.expected.push_str(line)?;
                case.expected.push('\n')?;
            }
        }
    }
    tally.compare(heap, &case)?;
    Ok(tally)
}

fn main(rt: HostRuntime) -> anyhow::Result<()> {
    let mut text = String::new(rt.alloc());
    rt.stdin().read_to_string(&mut text)?;
    let Tally { scripts, differ } = replay(rt.alloc(), text.as_str())?;
    println!(rt; "{scripts} recorded scripts, {differ} printed something else")?;
    Ok(())
}
