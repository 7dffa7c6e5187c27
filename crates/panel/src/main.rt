#![tactic(auto)]

// The panel: runs a script, from the file that its argument names or from standard input, and
// prints the transcript.
use script::{Calendars, Session, is_passed_over};
use std::{env, fs};

// A command line and its reply, as the transcript shows them.
fn show(rt: &HostRuntime, session: &mut Session<Calendars>, line: &str) -> anyhow::Result<()> {
    if !is_passed_over(line) {
        let reply = session.reply(rt.alloc(), line)?;
        println!(rt; "> {line}\n{reply}")?;
    }
    Ok(())
}

// A file is read before it is run, and input is answered line by line, so each has its loop.
fn run_file(rt: &HostRuntime, path: &str) -> anyhow::Result<()> {
    let script = fs::read_to_string(rt, path)?;
    let mut session = Session::<Calendars>::new();
    for line in script.lines() {
        show(rt, &mut session, line)?;
    }
    Ok(())
}

fn run_input(rt: &HostRuntime) -> anyhow::Result<()> {
    let mut session = Session::<Calendars>::new();
    for line in rt.lines(rt.alloc()) {
        show(rt, &mut session, line?.as_str())?;
    }
    Ok(())
}

fn main(rt: HostRuntime) -> anyhow::Result<()> {
    match env::args(&rt)?.nth(1) {
        Some(path) => run_file(&rt, path.as_str()),
        None => run_input(&rt),
    }
}
