// Tests of the program over files in memory, a case a line: the words of the command line; each command, each status with its line, each
// call of the host that fails, and the order of work; `translate` over the instructions of each kind, a file copier and the largest code,
// with the runs of both sides; both machines side by side, also where the 8080 leaves the profile or is stopped; single steps of the tagged
// 8080, each rule and each two of them that one instruction can break; made sources. Expected answers, in the file `stdout`, are by the
// manuals and docs/COMMANDS.md.
#![tactic(auto)]

// A case is `WORDS | P | I | N`. The words stand after the program's name, `;` parts those of several calls. The files P and I have these
// lines, which ` \ ` parts, and `N * LINE` is as many lines, in which `%` stands for the number of each; the file OUT holds `before`. The
// call of the host with the number N fails. A line without a bar is a source of the 8080 from 100H on, which runs.
//
// The answer is the status of each call, what is said, where ` / ` parts the lines, and after an arrow, if OUT no longer holds `before`,
// what it holds, of a long text its length. An empty line and one that begins with `#` are repeated. A line that begins with `xlt` is words
// alone, whose answer is the command that they are, or `none`.

mod words;

use host::MemHost;
use std::alloc::{AllocError, Global};
use std::io;
use xlt_app::xlt;

fn words_of(alloc: Global, text: &str) -> Result<Vec<String>, AllocError> {
    let mut words = Vec::new(alloc);
    for word in text.split_whitespace() {
        words.push(String::from_str(alloc, word)?)?;
    }
    Ok(words)
}

// A line, or as many as stand before the sign `*`.
fn add_line(file: &mut String, line: &str) -> Result<(), AllocError> {
    if let Some((times, line)) = line.split_once(" * ")
        && let Ok(times) = times.parse::<u32>()
    {
        return add_lines(file, times, line);
    }
    file.push_str(line)?;
    file.push('\n')
}

// So many lines. The sign `%` is the number of each, from 1 on.
fn add_lines(file: &mut String, times: u32, line: &str) -> Result<(), AllocError> {
    let parts = line.split_once('%');
    for number in 0..times {
        match parts {
            Some((before, behind)) => write!(file, "{before}{}{behind}", number + 1)?,
            None => file.push_str(line)?,
        }
        file.push('\n')?;
    }
    Ok(())
}

// A file of these lines, behind a first line that may be empty.
fn file_of(alloc: Global, first: &str, text: &str) -> Result<String, AllocError> {
    let mut file = String::from_str(alloc, first)?;
    if !text.is_empty() {
        for line in text.split(" \\ ") {
            add_line(&mut file, line)?;
        }
    }
    Ok(file)
}

// Puts a file of these lines.
fn put_file(
    alloc: Global,
    host: &mut MemHost,
    name: &str,
    first: &str,
    text: &str,
) -> Result<(), AllocError> {
    let file = file_of(alloc, first, text.trim())?;
    host.put(name, file.as_bytes())
}

// A host with the files of a case.
fn host_of(alloc: Global, first: &str, files: &str) -> Result<MemHost, AllocError> {
    let mut parts = files.split('|');
    let mut host = MemHost::new(alloc);
    put_file(alloc, &mut host, "P", first, parts.next().unwrap_or(""))?;
    put_file(alloc, &mut host, "I", "", parts.next().unwrap_or(""))?;
    host.put("OUT", b"before")?;
    let fails = parts.next().unwrap_or("").trim().parse::<u64>();
    host.fail_at(fails.unwrap_or(0))?;
    Ok(host)
}

// The statuses of the calls with these words, what is said, and what is written.
fn told(alloc: Global, host: &mut MemHost, words: &str) -> Result<String, AllocError> {
    let mut answer = String::new(alloc);
    for call in words.split(';') {
        let status = xlt(alloc, words_of(alloc, call)?, host);
        write!(answer, "{status}:")?;
    }
    push_said(alloc, &mut answer, host.said())?;
    push_written(alloc, &mut answer, host.file("OUT").unwrap_or(&[]))?;
    Ok(answer)
}

fn push_said(alloc: Global, answer: &mut String, said: &[u8]) -> Result<(), AllocError> {
    let said = String::from_utf8_lossy(alloc, said)?;
    for (number, line) in said.lines().enumerate() {
        answer.push_str(if number == 0 { " " } else { " / " })?;
        answer.push_str(line)?;
    }
    Ok(())
}

// What OUT holds, where it has changed.
fn push_written(alloc: Global, answer: &mut String, bytes: &[u8]) -> Result<(), AllocError> {
    if bytes == b"before".as_slice() {
        return Ok(());
    }
    if bytes.len() > 1000 {
        return write!(answer, " -> {} bytes", bytes.len());
    }
    let text = String::from_utf8_lossy(alloc, bytes)?;
    write!(answer, " -> {text:?}")
}

fn answer(alloc: Global, case: &str) -> Result<String, AllocError> {
    let (words, first, files) = match case.split_once('|') {
        Some((words, files)) => (words, "", files),
        None => ("run80 P", "ORG 100H\n", case),
    };
    let mut host = host_of(alloc, first, files)?;
    told(alloc, &mut host, words)
}

fn main(rt: HostRuntime) -> io::Result<()> {
    for line in rt.lines(rt.alloc()) {
        let line = line?;
        if line.is_empty() || line.starts_with('#') {
            println!(rt; "{line}")?;
        } else if line.starts_with("xlt") {
            println!(rt; "{}", words::told(rt.alloc(), line.as_str())?)?;
        } else {
            println!(rt; "{}", answer(rt.alloc(), line.as_str())?)?;
        }
    }
    Ok(())
}
