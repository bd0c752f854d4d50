//! A table's core and its lines: one that begins a core, adds a record or repeats a call is done
//! here, any other by `client.rt` or `server.rt`.
use crate::answer::AnswerText;
use crate::words::Words;
use crate::{client, server};
use ca_client_core::ClientCore;
use ca_server_core::ServerCore;
use ca_text::Refusal;
use std::alloc::Global;

/// The core that is called.
#[derive(Drop)]
enum Core {
    None,
    Client(ClientCore),
    Server(ServerCore),
}

/// The core that is called, and the lines of records and rules that the next server has.
#[derive(Drop)]
pub struct Table {
    alloc: Global,
    core: Core,
    records: String,
}

impl Table {
    /// A table with no core yet.
    pub fn new(alloc: Global) -> Table {
        Table {
            alloc,
            core: Core::None,
            records: String::new(alloc),
        }
    }

    /// Does what a line says, and answers it. A line that is not understood is answered as
    /// a refusal by BadText.
    pub fn answer(&mut self, line: &str, answer: &mut AnswerText) {
        answer.clear();
        if let Err(refusal) = self.do_line(line, answer) {
            answer.clear();
            let _ = answer.refusal(refusal);
        }
    }

    fn do_line(&mut self, line: &str, answer: &mut AnswerText) -> Result<(), Refusal> {
        let (call, rest) = line.split_once(" ").unwrap_or((line, ""));
        match call.as_bytes() {
            b"record" => self.add_record(line),
            b"rule" => self.add_record(line),
            b"client" => self.begin_client(rest),
            b"server" => self.begin_server(Words::new(rest)),
            b"repeat" => self.repeat(rest, answer),
            _ => self.call(call, rest, answer),
        }?;
        if answer.text().is_empty() {
            return answer.word("ok");
        }
        Ok(())
    }

    fn add_record(&mut self, line: &str) -> Result<(), Refusal> {
        let line = format!(in self.alloc; "{line}\n")?;
        self.records.push_str(line.as_str())?;
        Ok(())
    }

    fn begin_client(&mut self, rest: &str) -> Result<(), Refusal> {
        self.core = Core::Client(client::begin(self.alloc, rest)?);
        Ok(())
    }

    fn begin_server(&mut self, words: Words<'_>) -> Result<(), Refusal> {
        let core = server::begin(self.alloc, words, self.records.as_bytes())?;
        self.core = Core::Server(core);
        self.records.clear();
        Ok(())
    }

    /// `N CALL`.
    fn repeat(&mut self, rest: &str, answer: &mut AnswerText) -> Result<(), Refusal> {
        let Some((times, line)) = rest.split_once(" ") else {
            return Err(Refusal::BadText);
        };
        let (call, rest) = line.split_once(" ").unwrap_or((line, ""));
        for _ in 0..Words::new(times).number()? {
            answer.clear();
            self.call(call, rest, answer)?;
        }
        Ok(())
    }

    fn call(&mut self, call: &str, rest: &str, answer: &mut AnswerText) -> Result<(), Refusal> {
        let words = Words::new(rest);
        match &mut self.core {
            Core::None => Err(Refusal::BadText),
            Core::Client(core) => client::call(self.alloc, core, call, words, answer),
            Core::Server(core) => server::call(self.alloc, core, call, words, answer),
        }
    }
}
