// Shows what the reader, the numbers and the name table make of some texts.
#![tactic(auto)]

use names::NameTable;
use std::io;
use text::{DEFAULT_LIMIT, File, Script, Text, read_lines, read_number};

fn shown(bytes: &[u8]) -> &str {
    std::str::from_utf8(bytes).unwrap_or("?")
}

// Prints the words of a text line by line, or its first fault.
fn check<T: Text>(rt: &HostRuntime, text: &[u8], limit: usize) -> io::Result<()> {
    match read_lines::<T>(rt.alloc(), text, limit) {
        Ok(lines) => lines.iter().try_for_each(|line| println!(rt; "{line}")),
        Err(fault) => println!(rt; "{fault}"),
    }
}

fn check_all<T: Text>(
    rt: &HostRuntime,
    title: &str,
    texts: &[&[u8]],
    limit: usize,
) -> io::Result<()> {
    println!(rt; "-- {title}")?;
    texts
        .iter()
        .try_for_each(|text| check::<T>(rt, text, limit))
}

fn check_number(rt: &HostRuntime, word: &[u8]) -> io::Result<()> {
    let said = shown(word);
    match read_number(word) {
        Ok(n) => println!(rt; "number {said} is {n}"),
        Err(fault) => println!(rt; "number {said} is {fault}"),
    }
}

// Enters the words of each line, and prints what each line adds and then every name with its number.
fn check_names(rt: &HostRuntime, text: &[u8], room: u32) -> io::Result<()> {
    println!(rt; "-- names, with room for {room}")?;
    let Ok(lines) = read_lines::<File>(rt.alloc(), text, DEFAULT_LIMIT) else {
        return println!(rt; "no lines");
    };
    let mut names = NameTable::new(rt.alloc())?;
    for line in &lines {
        let number = line.number;
        match names.enter(&line.words, room) {
            Ok(()) => println!(rt; "line {number}: entered")?,
            Err(fault) => println!(rt; "line {number}: {fault}")?,
        }
    }
    print_names(rt, &names)
}

fn print_names(rt: &HostRuntime, names: &NameTable) -> io::Result<()> {
    println!(rt; "model {}", shown(names.model()))?;
    for (number, name) in (0..10).filter_map(|number| Some((number, names.name(number)?))) {
        let said = shown(name);
        match names.find(name) {
            Some(found) => println!(rt; "{number}: {said} is {found}")?,
            None => println!(rt; "{number}: {said} is unknown")?,
        }
    }
    Ok(())
}

fn files(rt: &HostRuntime) -> io::Result<()> {
    check_all::<File>(
        rt,
        "files",
        &[b".model t # a comment\n\n \t.inputs\ta  b \n# all hidden = , \\\n.end"],
        DEFAULT_LIMIT,
    )?;
    check_all::<File>(
        rt,
        "a comment inside a word, a line of blanks, a comment behind blanks",
        &[b"a#b c\n \t \n  # d\ne"],
        DEFAULT_LIMIT,
    )?;
    check_all::<File>(rt, "nothing", &[b""], DEFAULT_LIMIT)?;
    check_all::<File>(
        rt,
        "32 bytes, 33 bytes, 33 bytes before a wrong byte",
        &[
            b"abcdefghijklmnopqrstuvwxyz012345",
            b"abcdefghijklmnopqrstuvwxyz0123456",
            b"abcdefghijklmnopqrstuvwxyz0123456 =",
        ],
        DEFAULT_LIMIT,
    )?;
    check_all::<File>(
        rt,
        "bytes 13, comma, backslash, 127",
        &[b"a\r\n", b"a\na,b\n", b"\n\n\na\\\nb", b"a \x7f"],
        DEFAULT_LIMIT,
    )?;
    check_all::<File>(rt, "a limit of 4 bytes", &[b"a bc", b"a bcd"], 4)
}

fn scripts(rt: &HostRuntime) -> io::Result<()> {
    check_all::<Script>(
        rt,
        "scripts",
        &[b"input,a\n\n# x\nmove,y,0,a#,,\nmark"],
        DEFAULT_LIMIT,
    )?;
    check_all::<Script>(
        rt,
        "empty words",
        &[b",", b"mark\na,", b"a,,b", b",a"],
        DEFAULT_LIMIT,
    )?;
    check_all::<Script>(
        rt,
        "blanks, and a wrong byte behind an empty word",
        &[b" ", b"a, b", b",,="],
        DEFAULT_LIMIT,
    )
}

fn numbers(rt: &HostRuntime) -> io::Result<()> {
    println!(rt; "-- numbers")?;
    let words: [&[u8]; 8] = [
        b"0", b"65535", b"00012", b"99999", b"000012", b"", b"-1", b"1a",
    ];
    words.iter().try_for_each(|word| check_number(rt, word))
}

fn main(rt: HostRuntime) -> io::Result<()> {
    files(&rt)?;
    scripts(&rt)?;
    numbers(&rt)?;
    check_names(&rt, b"b a b\na c d\nc c\nb\ne", 3)?;
    check_names(&rt, b"x x\nx y", 1)
}
