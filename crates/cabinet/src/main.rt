//! The program `cabinet`. Without words it runs the demonstration; `help` names the words that it takes.

#![tactic(auto)]

mod demo;
mod simulate;

use anyhow::{anyhow, bail};
use std::process::ExitCode;
use std::{env, fs};

const USAGE: &str = "\
usage:
  cabinet                  runs the demonstration
  cabinet bundle P FILE    opens FILE as a bundle with pages of P bytes and lists its deliveries
  cabinet machine M KEY .. borrows and returns each key in turn, in a pool of M frames on a plain list;
                           KEY+ keeps the loan, -KEY returns one; a key is 5, or 7/5 for delivery 7, page 5
  cabinet help             prints this text
";

fn main(rt: HostRuntime) -> ExitCode {
    match run(&rt) {
        Ok(()) => ExitCode::SUCCESS,
        Err(e) => match eprintln!(rt; "cabinet: {e}") {
            Ok(()) | Err(_) => ExitCode::FAILURE,
        },
    }
}

fn run(rt: &HostRuntime) -> anyhow::Result<()> {
    // The words of the call, without the program's own name.
    let words: Vec<String> = env::args(rt)?.skip(1).collect(rt.alloc())?;
    let Some(first) = words.first() else {
        return demo::run(rt);
    };
    match first.as_str() {
        "help" => {
            rt.print(USAGE)?;
            Ok(())
        }
        "bundle" => bundle(rt, words.as_slice()),
        "machine" => simulate::run(rt, &words.as_slice()[1..]),
        other => {
            rt.print(USAGE)?;
            bail!("there is no word {other}")
        }
    }
}

// `bundle P FILE`: a line for each delivery, or the refusal.
fn bundle(rt: &HostRuntime, words: &[String]) -> anyhow::Result<()> {
    let [_, size, file] = words else {
        rt.print(USAGE)?;
        bail!("bundle takes a page size and a file");
    };
    let page_size = size
        .parse()
        .map_err(|_| anyhow!("the page size {size} is not a number"))?;
    let bytes = fs::read(rt, file).map_err(|e| anyhow!("cannot read {file}: {e}"))?;
    let text = console::describe(rt.alloc(), bytes.as_slice(), page_size)?;
    rt.print(text.as_str())?;
    Ok(())
}
