// Reads a script from standard input and prints what its lines are answered.
#![tactic(auto)]

use std::alloc::Global;
use std::io;
use std::io::Read;

fn read_all(rt: &HostRuntime, heap: Global) -> io::Result<Vec<u8>> {
    let mut bytes = Vec::new(heap);
    let mut input = rt.stdin();
    input.read_to_end(&mut bytes)?;
    Ok(bytes)
}

fn main(rt: HostRuntime) -> io::Result<()> {
    let heap = rt.alloc();
    let bytes = read_all(&rt, heap)?;
    let answers = script::run(heap, bytes.as_slice())?;
    rt.print(answers)
}
