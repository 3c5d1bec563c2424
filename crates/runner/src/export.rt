ghost use Rattle.runner.specs.Hosts.{Hosted};

use crate::run::run;

// The call for C and Rust hosts: how many bytes of lines were written, or minus the fault's number. The static library
// `runner_c` exports it.
pub fn channel_run_script(script: &[u8], out: &mut [u8]) -> i64
    ensures { Hosted script.now out.old out.new result }
{
    let ran = run(script, out);
    match ran.fault {
        None => ran.written as i64,
        Some(found) => -i64::from(found.fault.number()),
    }
}
