// The bench tester's tool: carries out a script, or lists a table.
#![tactic(auto)]

mod command;
mod failure;

use command::Command;
use console::{Console, Tokens, Unread, hex_words};
use failure::Failure;
use listing::Listing;
use std::alloc::AllocError;
use std::fs::File;
use std::io::{BufRead, BufReader, Read};
use std::process::ExitCode;
use std::{env, fs, io};

const USAGE: &str = "usage: noderun              carry out the script on standard input
       noderun FILE         carry out the script in FILE
       noderun list FILE    list the table in FILE, which has hex words
       noderun --help       print this (or -h)
A script has a call a line, and each call has an answer; '#' begins a comment.
The status is 0 whatever the calls answer, and 1 for a wrong command line or a file that cannot be read.";

fn open<'a>(rt: &HostRuntime, path: &'a str) -> Result<File, Failure<'a>> {
    match fs::open(rt, path) {
        Ok(file) => Ok(file),
        Err(e) => Err(Failure::Read(path, e)),
    }
}

/// A reader over `source` that reads ahead. One that finds no memory for that cannot read.
fn reading_ahead<'a, R: Read + Drop>(
    rt: &HostRuntime,
    name: &'a str,
    source: R,
) -> Result<BufReader<R>, Failure<'a>> {
    match BufReader::new(rt.alloc(), source) {
        Ok(input) => Ok(input),
        Err(e) => Err(Failure::Read(name, e)),
    }
}

/// Reads a line with its line feed into `line`. False: there is none left.
fn next_line<'a, R: BufRead>(
    input: &mut R,
    name: &'a str,
    line: &mut Vec<u8>,
) -> Result<bool, Failure<'a>> {
    line.clear();
    match input.read_until(b'\n', line) {
        Ok(count) => Ok(count > 0),
        Err(e) => Err(Failure::Read(name, e)),
    }
}

/// Answers a line. One that finds no memory changes nothing, and the script goes on.
fn answer_line(rt: &HostRuntime, console: &mut Console, line: &[u8]) -> io::Result<()> {
    match console.answer(line) {
        Ok(None) => Ok(()),
        Ok(Some(answer)) => println!(rt; "{answer}"),
        Err(AllocError) => println!(rt; "out of memory"),
    }
}

fn run_script<'a, R: Read + Drop>(
    rt: &HostRuntime,
    name: &'a str,
    source: R,
) -> Result<(), Failure<'a>> {
    let mut input = reading_ahead(rt, name, source)?;
    let mut line = Vec::new(rt.alloc());
    let mut console = Console::new(rt.alloc());
    for _ in 0..u64::MAX {
        if !next_line(&mut input, name, &mut line)? {
            break;
        }
        answer_line(rt, &mut console, line.as_slice())?;
    }
    Ok(())
}

/// The words of a file, with white space between them.
fn table_words<'a>(rt: &HostRuntime, path: &'a str) -> Result<Vec<u32>, Failure<'a>> {
    let mut input = reading_ahead(rt, path, open(rt, path)?)?;
    let mut line = Vec::new(rt.alloc());
    let mut words = Vec::new(rt.alloc());
    for number in 1..u64::MAX {
        if !next_line(&mut input, path, &mut line)? {
            break;
        }
        match hex_words(&mut words, Tokens::of(line.as_slice())) {
            Ok(()) => (),
            Err(Unread::NotUnderstood) => return Err(Failure::NotHex(path, number)),
            Err(Unread::Memory) => return Err(Failure::Memory(path)),
        }
    }
    Ok(words)
}

fn list<'a>(rt: &HostRuntime, path: &'a str) -> Result<(), Failure<'a>> {
    let words = table_words(rt, path)?;
    let listing = Listing::of(words.as_slice());
    print!(rt; "{listing}")?;
    Ok(())
}

fn carry_out<'a>(rt: &HostRuntime, command: Command<'a>) -> Result<(), Failure<'a>> {
    match command {
        Command::Script => run_script(rt, "standard input", rt.stdin()),
        Command::ScriptFile(path) => run_script(rt, path, open(rt, path)?),
        Command::List(path) => list(rt, path),
        Command::Help => Ok(println!(rt; "{USAGE}")?),
        Command::Wrong => Err(Failure::Usage),
    }
}

fn main(rt: HostRuntime) -> io::Result<ExitCode> {
    let words: Vec<String> = env::args(&rt)?.skip(1).collect(rt.alloc())?;
    match carry_out(&rt, Command::of(words.as_slice())) {
        Ok(()) => Ok(ExitCode::SUCCESS),
        Err(failure) => {
            eprintln!(rt; "noderun: {failure}")?;
            Ok(ExitCode::FAILURE)
        }
    }
}
