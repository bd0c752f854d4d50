//! The words of a call, each taken as what the call asks for: a number, a handle, an address, a
//! value.
use ca_arena::Handle;
use ca_client_core::Address;
use ca_dbr::{Meta, Value, read_value};
use ca_text::{Mask, Refusal};
use hex::FromHexError;
use std::alloc::Global;
use std::net::SocketAddrV4;
use std::str::SplitWhitespace;

/// The words of a line that were not taken yet. A word that is not what is asked for
/// is refused as BadText.
#[derive(Drop)]
pub struct Words<'a> {
    left: SplitWhitespace<'a>,
}

impl<'a> Words<'a> {
    /// All words of a line.
    pub fn new(line: &'a str) -> Words<'a> {
        Words {
            left: line.split_whitespace(),
        }
    }

    /// The next word.
    pub fn word(&mut self) -> Result<&'a str, Refusal> {
        self.left.next().ok_or(Refusal::BadText)
    }

    /// A number of 64 bits.
    pub fn number(&mut self) -> Result<u64, Refusal> {
        match self.word()?.parse::<u64>() {
            Ok(number) => Ok(number),
            Err(_) => Err(Refusal::BadText),
        }
    }

    /// A number of 16 bits.
    pub fn number16(&mut self) -> Result<u16, Refusal> {
        match self.word()?.parse::<u16>() {
            Ok(number) => Ok(number),
            Err(_) => Err(Refusal::BadText),
        }
    }

    /// A number of 32 bits.
    pub fn count(&mut self) -> Result<u32, Refusal> {
        match self.word()?.parse::<u32>() {
            Ok(number) => Ok(number),
            Err(_) => Err(Refusal::BadText),
        }
    }

    /// A handle as `INDEX.GENERATION`.
    pub fn handle(&mut self) -> Result<Handle, Refusal> {
        let Some((index, generation)) = self.word()?.split_once(".") else {
            return Err(Refusal::BadText);
        };
        match (index.parse::<u16>(), generation.parse::<u32>()) {
            (Ok(index), Ok(generation)) => Ok(Handle { index, generation }),
            _ => Err(Refusal::BadText),
        }
    }

    /// A mask, of which at least one bit has a meaning.
    pub fn mask(&mut self) -> Result<Mask, Refusal> {
        Mask::new(self.number16()?).ok_or(Refusal::BadText)
    }

    /// An address as `A.B.C.D:PORT`.
    pub fn address(&mut self) -> Result<Address, Refusal> {
        address_in(self.word()?)
    }

    /// The addresses that all words left are.
    pub fn addresses(self, alloc: Global) -> Result<Vec<Address>, Refusal> {
        let mut all = Vec::new(alloc);
        for word in self.left {
            all.push(address_in(word)?)?;
        }
        Ok(all)
    }

    /// The bytes that all words left are.
    pub fn bytes(self, alloc: Global) -> Result<Vec<u8>, Refusal> {
        let mut bytes = Vec::new(alloc);
        for word in self.left {
            bytes.extend_from_slice(&decoded(alloc, word)?)?;
        }
        Ok(bytes)
    }

    /// A value with its metadata, as `TYPE COUNT BYTES`, the last words.
    pub fn value(mut self, alloc: Global) -> Result<(Value, Meta), Refusal> {
        let data_type = self.number16()?;
        let count = self.count()?;
        read_value(alloc, data_type, count, &self.bytes(alloc)?)
    }
}

/// The bytes of a word of hexadecimal digits.
fn decoded(alloc: Global, word: &str) -> Result<Vec<u8>, Refusal> {
    match hex::decode(alloc, word.as_bytes()) {
        Ok(bytes) => Ok(bytes),
        Err(FromHexError::OutOfMemory) => Err(Refusal::OutOfMemory),
        Err(_) => Err(Refusal::BadText),
    }
}

/// The address that a word `A.B.C.D:PORT` is.
fn address_in(word: &str) -> Result<Address, Refusal> {
    match word.parse::<SocketAddrV4>() {
        Ok(address) => Ok(Address {
            host: address.ip().to_bits(),
            port: address.port(),
        }),
        Err(_) => Err(Refusal::BadText),
    }
}
