// The rig: carries out the script on standard input, and prints what each line answers.
// A script with a line that is no command is not carried out at all.
#![tactic(auto)]

use memories::tables::Tables;
use memories::write_back::WriteBack;
use memories::write_through::WriteThrough;
use script::answers::ask;
use script::commands::{Command, Kind};
use script::read::read_script;
use script::scripts::Step;
use std::io;
use std::process::ExitCode;

// One list of words, with its name before it.
fn print_words(rt: &impl Print, name: &str, words: &[u32]) -> io::Result<()> {
    print!(rt; "{name}")?;
    for word in words {
        print!(rt; " {word}")?;
    }
    println!(rt)
}

// Carries out one command on the memory.
fn carry_out<M: Tables>(
    rt: &impl Print,
    memory: &mut M,
    text: &str,
    command: Command,
) -> io::Result<()> {
    if command == Command::Words {
        let (working, lasting) = memory.tables();
        print_words(rt, "working", working)?;
        return print_words(rt, "lasting", lasting);
    }
    match ask(memory, command) {
        Ok(answer) => println!(rt; "{text}: {answer}"),
        Err(fault) => println!(rt; "{text}: {fault}"),
    }
}

// Carries out these lines on one memory.
fn drive<M: Tables>(rt: &impl Print, memory: &mut M, steps: &[Step]) -> io::Result<()> {
    for step in steps {
        if let Some(command) = step.command {
            carry_out(rt, memory, &step.line.text, command)?;
        }
    }
    Ok(())
}

// Makes a memory with all words zero, and carries out these lines on it. Each kind is a type of its own.
fn run_on(
    rt: &(impl Print + AllocGlobal),
    kind: Kind,
    places: usize,
    steps: &[Step],
) -> io::Result<()> {
    let mut working = vec![in rt.alloc(); 0u32; places]?;
    match kind {
        Kind::Back => {
            let mut lasting = vec![in rt.alloc(); 0u32; places]?;
            drive(rt, &mut WriteBack::new(&mut working, &mut lasting), steps)
        }
        Kind::Through => drive(rt, &mut WriteThrough::new(&mut working), steps),
    }
}

// The memory that a step makes.
fn memory_of(step: &Step) -> Option<(Kind, usize)> {
    match step.command {
        Some(Command::Memory(kind, places)) => Some((kind, places)),
        _ => None,
    }
}

// Carries out a script, one memory after the other: each has the lines up to the next memory line.
// Before the first memory line there is nothing to carry out.
fn run(rt: &(impl Print + AllocGlobal), steps: &[Step]) -> io::Result<()> {
    for part in steps.chunk_by(|_, next| memory_of(next).is_none()) {
        if let Some((kind, places)) = part.first().and_then(memory_of) {
            run_on(rt, kind, places, part)?;
        }
    }
    Ok(())
}

fn rig(rt: &(impl Input + Print + AllocGlobal)) -> anyhow::Result<()> {
    let text = io::read_to_string(rt.alloc(), rt.reader())?;
    let script = read_script(rt.alloc(), &text)?;
    run(rt, &script.steps)?;
    Ok(())
}

// A complaint goes to standard error, on one line, and ends the program with status 1.
fn main(rt: HostRuntime) -> ExitCode {
    let Err(error) = rig(&rt) else {
        return ExitCode::SUCCESS;
    };
    let _ = eprintln!(rt; "rig: {error}");
    ExitCode::FAILURE
}
