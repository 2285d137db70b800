// The program: prints the answer to the words of its call, or why there is none.
#![tactic(auto)]

use command::answer::answer;
use command::failure::Failure;
use std::env;
use std::process::ExitCode;

fn run(rt: &HostRuntime) -> Result<(), Failure> {
    let words: Vec<String> = env::args(rt)?.skip(1).collect(rt.alloc())?;
    let page = answer(rt, words.as_slice())?;
    Ok(rt.print(page)?)
}

fn main(rt: HostRuntime) -> ExitCode {
    match run(&rt) {
        Ok(()) => ExitCode::SUCCESS,
        Err(failure) => {
            let _ = eprintln!(rt; "{failure}");
            ExitCode::FAILURE
        }
    }
}
