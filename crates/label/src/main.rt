// Draws the label of a text in the terminal, or reads a label back. `label --help` says how it is called.
// Here is the command line; what reads or writes besides is in draw, read and show.
#![tactic(auto)]

ghost use Rattle.std.specs.Prelude.{◌+◌, ◌≤◌, ◌<◌, ◌^◌, length};

use std::env::{Env, FillError};
use streams::say;
use terminal::options;
use terminal::options::Options;
use terminal::text::{Text, escape};

mod draw; // draws the label of a text
mod help; // what the program says of itself
mod read; // reads a label from standard input
mod refusals; // the words of refusals
mod show; // what a label that was read holds

// What the command line asks for; or that it was not understood, which was said.
#[derive(Clone, Copy)]
enum Asked {
    Draw(Options),
    Read,
    Help,
    NotUnderstood,
}

// Writes a word of the command line, escaped.
fn word(rt: &impl Print, w: &[u8])
    requires { length w.now ≤ 16 }
{
    let mut memory = [0u8; 64];
    let mut out = Text::new(&mut memory);
    escape(&mut out, w);
    let _ = rt.write_all(out.bytes());
}

// Says which words are not understood.
fn not_understood(rt: &impl Print, what: &str, name: &[u8], value: &[u8]) -> Asked
    requires { (length name.now ≤ 16) × (length value.now ≤ 16) }
{
    say!(rt; what);
    word(rt, name);
    say!(rt; " ");
    word(rt, value);
    say!(rt; "\n\n");
    Asked::NotUnderstood
}

// What is asked for after the option of a name and its value.
fn option_value(rt: &impl Print, o: Options, name: &[u8], value: &[u8]) -> Asked
    requires { (length name.now ≤ 16) × (length value.now ≤ 16) }
{
    match options::chosen(o, name, value) {
        Some(next) => Asked::Draw(next),
        None => not_understood(rt, "label: not understood: ", name, value),
    }
}

// What is asked for after the option of a name, which is word i.
fn option_named(rt: &(impl Env + Print), o: Options, i: usize, name: &[u8]) -> Asked
    requires { (i + 1 < 2 ^ 64) × (length name.now ≤ 16) }
{
    if name == b"--help".as_slice() {
        return Asked::Help;
    }
    let mut value = [0u8; 16];
    match rt.arg(i + 1, &mut value) {
        Ok(n) => option_value(rt, o, name, &value[..n]),
        Err(FillError::NotPresent) => not_understood(
            rt,
            "label: not understood, or without its value: ",
            name,
            b"",
        ),
        Err(FillError::TooLong) => not_understood(
            rt,
            "label: not understood: the value of ",
            name,
            b"",
        ),
    }
}

// What is asked for after the words i and i + 1.
fn option_pair(rt: &(impl Env + Print), o: Options, i: usize) -> Asked
    requires { i + 1 < 2 ^ 64 }
{
    let mut name = [0u8; 16];
    match rt.arg(i, &mut name) {
        Ok(n) => option_named(rt, o, i, &name[..n]),
        Err(_) => {
            say!(rt; "label: not understood: a word of more than 16 letters\n\n");
            Asked::NotUnderstood
        }
    }
}

// How many words the command line has, the program's own name among them.
fn word_count(rt: &impl Env) -> usize {
    (0..usize::MAX)
        .find(|i| matches!(rt.arg(*i, &mut []), Err(FillError::NotPresent)))
        .unwrap_or(usize::MAX)
}

// Whether word i is a word of at most 16 bytes.
fn is_word(rt: &impl Env, i: usize, word: &[u8]) -> bool {
    let mut name = [0u8; 16];
    match rt.arg(i, &mut name) {
        Ok(n) => &name[..n] == word,
        Err(_) => false,
    }
}

// What the command line asks for, up to the first words that are not understood.
fn command(rt: &(impl Env + Print)) -> Asked {
    let words = word_count(rt);
    if words == 2 && is_word(rt, 1, b"read") {
        return Asked::Read;
    }
    let mut o = options::defaults();
    for k in 0..words / 2 {
        match option_pair(rt, o, 2 * k + 1) {
            Asked::Draw(next) => o = next,
            other => return other,
        }
    }
    Asked::Draw(o)
}

// Does what the command line asks for. A write that fails is let go, and the next is tried (`streams::say`).
fn main(rt: HostRuntime) {
    match command(&rt) {
        Asked::Draw(o) => draw::read_text(&rt, o),
        Asked::Read => read::read_label(&rt),
        Asked::Help => help::help(&rt),
        Asked::NotUnderstood => help::usage(&rt),
    }
}
