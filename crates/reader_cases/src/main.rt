// Plays the calls of a script to readers over stored sets, and prints every answer.
#![tactic(auto)]

mod script;
mod text;

use anyhow::anyhow;
use image::{Image, Indexed, Strip};
use script::{Form, Run, runs};
use std::fs;
use text::answer_line;
use witness::play;

// Opens an image and plays a run over it: a line for each call.
fn answer<I: Image + Drop>(rt: &HostRuntime, bytes: Vec<u8>, run: Run) -> anyhow::Result<()> {
    let Ok(deck) = I::open(bytes) else {
        return Err(anyhow!("an image is refused"));
    };
    let Run {
        form: _,
        name: _,
        lines,
        calls,
    } = run;
    let answers = play(rt.alloc(), deck, calls)?;
    for (line, answered) in lines.iter().zip(answers.iter()) {
        rt.println(answer_line(rt.alloc(), line, answered)?)?;
    }
    Ok(())
}

// Reads a run's image and plays the run.
fn perform(rt: &HostRuntime, run: Run) -> anyhow::Result<()> {
    let name = run.name;
    let form = run.form;
    println!(rt; "{form} {name}")?;
    let path = format!(in rt.alloc(); "{name}.{form}")?;
    let bytes = fs::read(rt, path.as_str())?;
    // an arm for each image's type
    match form {
        Form::Strip => answer::<Strip>(rt, bytes, run),
        Form::Indexed => answer::<Indexed>(rt, bytes, run),
    }
}

fn all(rt: &HostRuntime) -> anyhow::Result<()> {
    let text = fs::read_to_string(rt, "cases.txt")?;
    for run in runs(rt.alloc(), text.as_str())? {
        perform(rt, run)?;
    }
    Ok(())
}

fn main(rt: HostRuntime) -> anyhow::Result<()> {
    all(&rt)
}
