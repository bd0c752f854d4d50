//! Answers as text: how each thing that a core returns is written in a line.
use ca_arena::Handle;
use ca_client_core::{Address, Notice, Notices};
use ca_dbr::{Display, Meta, Outcome, Value, write_value};
use ca_text::{Refusal, Status};
use std::alloc::Global;
use std::net::Ipv4Addr;

/// More bytes than these are not written in full.
const WRITTEN: usize = 1024;

/// More notices than these are not written.
const NOTICES: u32 = 100_000;

/// An answer as text: words in one line.
#[derive(Drop)]
pub struct AnswerText {
    alloc: Global,
    text: String,
}

impl AnswerText {
    /// No answer yet.
    pub fn new(alloc: Global) -> AnswerText {
        AnswerText {
            alloc,
            text: String::new(alloc),
        }
    }

    /// The answer so far.
    pub fn text(&self) -> &str {
        self.text.as_str()
    }

    /// Begins again.
    pub fn clear(&mut self) {
        self.text.clear();
    }

    /// Adds a word, after a space if it is not the first.
    pub fn word(&mut self, word: &str) -> Result<(), Refusal> {
        if !self.text.is_empty() {
            self.text.push_str(" ")?;
        }
        self.text.push_str(word)?;
        Ok(())
    }

    /// Adds a number, in decimal.
    pub fn number(&mut self, number: u64) -> Result<(), Refusal> {
        self.word(format!(in self.alloc; "{number}")?.as_str())
    }

    /// Adds that the call was refused, and by what.
    pub fn refusal(&mut self, refusal: Refusal) -> Result<(), Refusal> {
        self.word(format!(in self.alloc; "refused {refusal}")?.as_str())
    }

    /// Adds a status, by its number.
    pub fn status(&mut self, status: Status) -> Result<(), Refusal> {
        self.number(u64::from(status.number))
    }

    /// A handle as `INDEX.GENERATION`.
    pub fn handle(&mut self, handle: Handle) -> Result<(), Refusal> {
        let Handle { index, generation } = handle;
        self.word(format!(in self.alloc; "{index}.{generation}")?.as_str())
    }

    /// A word, and a handle.
    pub fn of(&mut self, word: &str, handle: Handle) -> Result<(), Refusal> {
        self.word(word)?;
        self.handle(handle)
    }

    /// An address as `A.B.C.D:PORT`.
    pub fn address(&mut self, address: Address) -> Result<(), Refusal> {
        let host = Ipv4Addr::from_bits(address.host);
        let port = address.port;
        self.word(format!(in self.alloc; "{host}:{port}")?.as_str())
    }

    /// Bytes in words of 8, or of many how many there are and the first.
    pub fn bytes(&mut self, bytes: &[u8]) -> Result<(), Refusal> {
        if bytes.len() <= WRITTEN {
            return self.all_bytes(bytes);
        }
        self.number(bytes.len() as u64)?;
        self.word("bytes")?;
        self.all_bytes(bytes.get(..64).unwrap_or(bytes))
    }

    fn all_bytes(&mut self, bytes: &[u8]) -> Result<(), Refusal> {
        if bytes.is_empty() {
            return self.word("nothing");
        }
        for piece in bytes.chunks(8) {
            self.word(hex::encode(self.alloc, piece)?.as_str())?;
        }
        Ok(())
    }

    fn value(&mut self, value: &Value, meta: &Meta) -> Result<(), Refusal> {
        let base = value.base_type().number();
        self.number(u64::from(base))?;
        self.number(value.count() as u64)?;
        let mut image = Vec::new(self.alloc);
        write_value(base, value, &Meta::ZERO, &mut image)?;
        self.bytes(&image)?;
        if *meta == Meta::ZERO {
            return Ok(());
        }
        self.meta(meta)
    }

    fn meta(&mut self, meta: &Meta) -> Result<(), Refusal> {
        self.word("at")?;
        self.number(u64::from(meta.status))?;
        self.number(u64::from(meta.severity))?;
        self.number(u64::from(meta.seconds))?;
        self.number(u64::from(meta.nanos))
    }

    // Display data: units, precision, the limits in the order of an image, each as the bit pattern
    // of a DOUBLE, and each name of a state after a word of its own. All bytes are written.
    fn display(&mut self, display: &Display) -> Result<(), Refusal> {
        self.word("units")?;
        self.bytes(&display.units)?;
        self.word("precision")?;
        let precision = display.precision;
        self.word(format!(in self.alloc; "{precision}")?.as_str())?;
        self.word("limits")?;
        for limit in display.limits.in_order() {
            self.bytes(&limit.to_be_bytes())?;
        }
        for name in &display.states {
            self.word("state")?;
            self.bytes(name)?;
        }
        Ok(())
    }

    fn outcome(&mut self, outcome: &Outcome) -> Result<(), Refusal> {
        match outcome {
            Outcome::Value(value, meta) => {
                self.word("value")?;
                self.value(value, meta)
            }
            Outcome::Displayed(value, meta, display) => {
                self.word("displayed")?;
                self.value(value, meta)?;
                self.display(display)
            }
            Outcome::Done => self.word("done"),
            Outcome::Failed(status) => {
                self.word("failed")?;
                self.status(*status)
            }
            Outcome::Unreadable(refusal) => {
                self.word("unreadable")?;
                self.refusal(*refusal)
            }
            Outcome::Disconnected => self.word("disconnected"),
        }
    }

    fn notice(&mut self, notice: &Notice) -> Result<(), Refusal> {
        match notice {
            Notice::Live(channel) => self.of("live", *channel),
            Notice::Lost(channel) => self.of("lost", *channel),
            Notice::Completed(request, outcome) => {
                self.of("completed", *request)?;
                self.outcome(outcome)
            }
            Notice::Update(subscription, outcome) => {
                self.of("update", *subscription)?;
                self.outcome(outcome)
            }
            Notice::SubscriptionEnded(subscription, status) => {
                self.of("ended", *subscription)?;
                self.status(*status)
            }
            Notice::WriteRefused(channel, status) => {
                self.of("write-refused", *channel)?;
                self.status(*status)
            }
        }
    }

    /// Notices in order, with a comma after each.
    pub fn notices(&mut self, mut notices: Notices) -> Result<(), Refusal> {
        for _ in 0..NOTICES {
            let Some(notice) = notices.next() else {
                break;
            };
            self.notice(&notice)?;
            self.text.push_str(",")?;
        }
        Ok(())
    }
}
