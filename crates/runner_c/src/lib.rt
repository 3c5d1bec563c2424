// The call for C and Rust hosts, by its symbol: what `runner::export` says, for a linker.
#![tactic(auto)]

ghost use Rattle.runner.specs.Hosts.{Hosted};

use runner::export;

// How many bytes of lines were written, or minus the fault's number.
#[unsafe(no_mangle)]
pub extern "C" fn channel_run_script(script: &[u8], out: &mut [u8]) -> i64
    ensures { Hosted script.now out.old out.new result }
{
    export::channel_run_script(script, out)
}
