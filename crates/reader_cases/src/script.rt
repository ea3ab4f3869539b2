// Scripts. A line `strip NAME` or `indexed NAME` begins a run, and each line below it is one of its calls.
use anyhow::anyhow;
use reader::Call;
use std::alloc::Global;
use std::fmt;
use witness::Asked;

// How a set is stored.
#[derive(Clone, Copy)]
pub enum Form {
    Strip,
    Indexed,
}

// The word for it: in a script, and at the end of a file's name.
impl fmt::Display for Form {
    fn fmt<W: fmt::Write>(&self, f: &mut fmt::Formatter<W>) -> fmt::Result {
        match self {
            Form::Strip => f.write_str("strip"),
            Form::Indexed => f.write_str("indexed"),
        }
    }
}

// The calls of a run, in order, and the lines that they are written in. Two vectors, since the calls are played as one: a vector of pairs would be
// taken apart into these two.
#[derive(Drop)]
pub struct Run<'a> {
    pub form: Form,
    pub name: &'a str,
    pub lines: Vec<&'a str>,
    pub calls: Vec<Asked>,
}

// A run without calls.
fn fresh<'a>(heap: Global, form: Form, name: &'a str) -> Run<'a> {
    Run {
        form,
        name,
        lines: Vec::new(heap),
        calls: Vec::new(heap),
    }
}

// A call without a buffer: it is given an empty one.
fn bare(heap: Global, call: Call) -> Asked {
    Asked {
        call,
        buffer: Vec::new(heap),
    }
}

// A call with a buffer of this length, filled with this byte.
fn filled(heap: Global, call: Call, length: &str, fill: &str) -> anyhow::Result<Asked> {
    let length = length.parse::<u16>()?;
    let fill = fill.parse::<u8>()?;
    let buffer = vec![in heap; fill; length as usize]?;
    Ok(Asked { call, buffer })
}

// The call that these words spell.
fn asked(heap: Global, words: &[&str]) -> anyhow::Result<Asked> {
    match words {
        ["survey"] => Ok(bare(heap, Call::Survey)),
        ["tally"] => Ok(bare(heap, Call::Tally)),
        ["band", k] => Ok(bare(heap, Call::Band(k.parse::<u32>()?))),
        ["ident", length, fill] => filled(heap, Call::Ident, length, fill),
        ["line", band, line, length, fill] => {
            let call = Call::Line(band.parse::<u8>()?, line.parse::<u32>()?);
            filled(heap, call, length, fill)
        }
        ["sheet", band, kind, index, length, fill] => {
            let call = Call::Sheet(
                band.parse::<u8>()?,
                kind.parse::<u8>()?,
                index.parse::<u32>()?,
            );
            filled(heap, call, length, fill)
        }
        _ => Err(anyhow!("no such call")),
    }
}

// The runs of a script. Empty lines and lines that begin with `#` are skipped.
pub fn runs<'a>(heap: Global, text: &'a str) -> anyhow::Result<Vec<Run<'a>>> {
    let mut runs = Vec::new(heap);
    for line in text.lines() {
        let words: Vec<&'a str> = line.split_whitespace().collect(heap)?;
        match words.as_slice() {
            [] | ["#", ..] => {}
            ["strip", name] => runs.push(fresh(heap, Form::Strip, name))?,
            ["indexed", name] => runs.push(fresh(heap, Form::Indexed, name))?,
            words => {
                let asked = asked(heap, words)?;
                let Some(run) = runs.last_mut() else {
                    return Err(anyhow!("a call before the first run"));
                };
                run.lines.push(line)?;
                run.calls.push(asked)?;
            }
        }
    }
    Ok(runs)
}
