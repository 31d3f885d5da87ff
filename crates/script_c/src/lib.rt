// The calls of `script` for C and its like: each export passes on to the call of its name, and states its clauses again.
#![tactic(auto)]

ghost use Rattle.std.specs.Prelude.{◌≡◌, length};
ghost use Rattle.script.specs.Script.{run, packed};

// Runs a script from an empty network and writes its answer lines: the answer number times 2^32, plus the bytes written.
#[unsafe(no_mangle)]
pub extern "C" fn net_run(script: &[u8], out: &mut [u8]) -> u64
    ensures { (result, out.new) ≡ packed (run script.now (length out.old)) out.old }
{
    script::net_run(script, out)
}
