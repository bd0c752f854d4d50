//! Tables of calls to one core, a client's or a server's. Each line of standard input is a
//! call, and goes out again with its answer after ` -> `; empty lines and those that begin with
//! `#` go out as they are.
//!
//! ```text
//! client USER HOST NOW SERVER.. names SERVER..     a client begins again: where it searches,
//!                                                  and its name servers, each as A.B.C.D:PORT
//! record NAME TYPE COUNT quick|slow VALUE..        a record of the next server
//! rule USER HOST NAME rw|r|w|-                     a rule of the next server
//! server PORT NOW                                  a server begins again
//! repeat N CALL                                    a call N times: the answer is the last one
//! ```
//!
//! A handle is written `INDEX.GENERATION`, bytes as hexadecimal digits in words of any length,
//! and a value as `TYPE COUNT BYTES`, the bytes being its image. The calls are those of
//! `client.rt` and `server.rt`.
#![tactic(auto)]

mod answer;
mod client;
mod rounds;
mod server;
mod table;
mod words;

use crate::answer::AnswerText;
use crate::table::Table;
use std::io;

fn main(rt: HostRuntime) -> io::Result<()> {
    let mut table = Table::new(rt.alloc());
    let mut answer = AnswerText::new(rt.alloc());
    answer_all(&rt, &mut table, &mut answer)
}

/// Does what the lines of standard input say.
fn answer_all(rt: &HostRuntime, table: &mut Table, answer: &mut AnswerText) -> io::Result<()> {
    for line in rt.lines(rt.alloc()) {
        answer_line(rt, line?.as_str(), table, answer)?;
    }
    Ok(())
}

fn answer_line(
    rt: &HostRuntime,
    line: &str,
    table: &mut Table,
    answer: &mut AnswerText,
) -> io::Result<()> {
    if line.is_empty() || line.starts_with("#") {
        return println!(rt; "{line}");
    }
    table.answer(line, answer);
    let text = answer.text();
    println!(rt; "{line} -> {text}")
}
