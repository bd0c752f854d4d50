//! Values as words of a line: the name of a base type, and each element of that type. Begin at
//! `read_value`. Strings and floating-point numbers are given as hexadecimal digits of their bytes.
ghost use Rattle.std.specs.Prelude.{◌≡◌, ℕ, ℤ, List, FitsSigned, IfErr, IfOk, OnOk, length};
ghost use Rattle.std.specs.Int.{w64};
ghost use Rattle.ca_text.specs.declared.refusal.Refusal.TheVariants.{BadText};
ghost use Rattle.ca_dbr.specs.Elements.{Elements, bytes_4, bytes_8, base_of, elements};
ghost use Rattle.ca_dbr.specs.declared.data_type.BaseType.{BaseType};
ghost use Rattle.ca_script.specs.Grammar.{Refuses};
ghost use Rattle.ca_script.specs.Lines.{AreEach, AreElements, IsChar, IsDouble, IsEnum, IsFloat};
ghost use Rattle.ca_script.specs.Lines.{IsHex, IsInt, IsLong, IsString, IsWhole, type_word};

use crate::words::{Words, is_word};
use ca_dbr::{BaseType, Value};
use ca_text::Refusal;
use std::alloc::Global;

const PLUS: u8 = b'+';

/// An element as a word of a line.
pub trait Element: Copy + Drop {
    ghost says: { List ℕ → Self → Type 0 };

    /// The element that a word is. Refused as BadText.
    fn read(word: &[u8]) -> Result<Self, Refusal>
        ensures ok { IfOk result (λ x. says word.now x) }
        ensures err { IfErr result (λ e. (e ≡ BadText) × ((x : Self) → says word.now x → ⊥)) };
}

/// The base type that a word names. Refused as BadText.
pub fn base_in(word: &[u8]) -> Result<BaseType, Refusal>
    ensures ok { IfOk result (λ b. word.now ≡ type_word b) }
    ensures err { IfErr result (λ e.
        (e ≡ BadText) × ((b : BaseType) → word.now ≡ type_word b → ⊥)) }
{
    if is_word(word, "STRING") {
        return Ok(BaseType::String);
    }
    if is_word(word, "INT") {
        return Ok(BaseType::Int);
    }
    if is_word(word, "FLOAT") {
        return Ok(BaseType::Float);
    }
    if is_word(word, "ENUM") {
        return Ok(BaseType::Enum);
    }
    if is_word(word, "CHAR") {
        return Ok(BaseType::Char);
    }
    if is_word(word, "LONG") {
        return Ok(BaseType::Long);
    }
    if is_word(word, "DOUBLE") {
        return Ok(BaseType::Double);
    }
    Err(Refusal::BadText)
}

/// The elements of this type that the words left are. Refused as BadText, then as OutOfMemory.
pub fn read_value(alloc: Global, base: BaseType, words: Words<'_>) -> Result<Value, Refusal>
    ensures ok { IfOk result (λ v. AreElements words.entry (elements v)) }
    ensures base { IfOk result (λ v. base_of (elements v) ≡ base) }
    ensures err { IfErr result (λ e.
        Refuses (λ (v : Elements). (base_of v ≡ base) × AreElements words.entry v) e) }
{
    match base {
        BaseType::String => Ok(Value::Strings(read_all(alloc, words)?)),
        BaseType::Int => Ok(Value::Ints(read_all(alloc, words)?)),
        BaseType::Float => Ok(Value::Floats(read_all(alloc, words)?)),
        BaseType::Enum => Ok(Value::Enums(read_all(alloc, words)?)),
        BaseType::Char => Ok(Value::Chars(read_all(alloc, words)?)),
        BaseType::Long => Ok(Value::Longs(read_all(alloc, words)?)),
        BaseType::Double => Ok(Value::Doubles(read_all(alloc, words)?)),
    }
}

/// The elements that the words left are. Refused as BadText, then as OutOfMemory.
pub fn read_all<E: Element>(alloc: Global, mut words: Words<'_>) -> Result<Vec<E>, Refusal>
    ensures ok { IfOk result (λ v. AreEach E.says words.entry v.items) }
    ensures err { IfErr result (λ e. Refuses (AreEach E.says words.entry) e) }
{
    let mut items = Vec::new(alloc);
    while !words.is_empty() {
        items.push(E::read(words.word()?)?)?;
    }
    Ok(items)
}

/// The whole number that a word is, if it has at most 64 bits. Refused as BadText.
fn whole_in(word: &[u8]) -> Result<i64, Refusal>
    ensures ok { IfOk result (λ z. IsWhole word.now z) }
    ensures err { IfErr result (λ e.
        (e ≡ BadText) × ((z : ℤ) → IsWhole word.now z → FitsSigned w64 z → ⊥)) }
{
    if word.first() == Some(&PLUS) {
        return Err(Refusal::BadText);
    }
    let Ok(text) = str::from_utf8(word) else {
        return Err(Refusal::BadText);
    };
    match text.parse::<i64>() {
        Ok(whole) => Ok(whole),
        Err(_) => Err(Refusal::BadText),
    }
}

/// Reads a word's hexadecimal digits into just as many bytes. Refused as BadText.
fn read_hex(word: &[u8], bytes: &mut [u8]) -> Result<(), Refusal>
    ensures ok { OnOk result (IsHex word.now bytes.new) }
    ensures err { IfErr result (λ e.
        (e ≡ BadText) × ((b : List ℕ) → length b ≡ length bytes.old → IsHex word.now b → ⊥)) }
{
    match hex::decode_to_slice(word, bytes) {
        Ok(()) => Ok(()),
        Err(_) => Err(Refusal::BadText),
    }
}

/// How many bytes a word's hexadecimal digits are.
fn byte_count(word: &[u8]) -> usize
    ensures { (bytes : List ℕ) → IsHex word.now bytes → length bytes ≡ result }
{
    word.len() / 2
}

/// The number of four bytes, the highest first.
#[tactic(auto, unfolding(ca_dbr::specs::Elements::bytes_4))]
fn number_4(bytes: &[u8]) -> u32
    requires { length bytes.now ≡ 4 }
    ensures { bytes_4 result ≡ bytes.now }
{
    u32::from_be_bytes([bytes[0], bytes[1], bytes[2], bytes[3]])
}

/// The number of eight bytes, the highest first.
#[tactic(auto, unfolding(ca_dbr::specs::Elements::bytes_8))]
fn number_8(bytes: &[u8]) -> u64
    requires { length bytes.now ≡ 8 }
    ensures { bytes_8 result ≡ bytes.now }
{
    u64::from_be_bytes([
        bytes[0], bytes[1], bytes[2], bytes[3], bytes[4], bytes[5], bytes[6], bytes[7],
    ])
}

impl Element for [u8; 40] {
    ghost says = { IsString };

    fn read(word: &[u8]) -> Result<[u8; 40], Refusal> {
        let mut text = [0; 40];
        let size = byte_count(word);
        if size > 40 {
            return Err(Refusal::BadText);
        }
        read_hex(word, &mut text[..size])?;
        Ok(text)
    }
}

impl Element for i16 {
    ghost says = { IsInt };

    fn read(word: &[u8]) -> Result<i16, Refusal> {
        let whole = whole_in(word)?;
        if whole < -32768 || whole > 32767 {
            return Err(Refusal::BadText);
        }
        Ok(whole as i16)
    }
}

impl Element for u32 {
    ghost says = { IsFloat };

    fn read(word: &[u8]) -> Result<u32, Refusal> {
        let mut bytes = [0; 4];
        read_hex(word, &mut bytes)?;
        Ok(number_4(&bytes))
    }
}

impl Element for u16 {
    ghost says = { IsEnum };

    fn read(word: &[u8]) -> Result<u16, Refusal> {
        let whole = whole_in(word)?;
        if whole < 0 || whole > 65535 {
            return Err(Refusal::BadText);
        }
        Ok(whole as u16)
    }
}

impl Element for u8 {
    ghost says = { IsChar };

    fn read(word: &[u8]) -> Result<u8, Refusal> {
        let whole = whole_in(word)?;
        if whole < 0 || whole > 255 {
            return Err(Refusal::BadText);
        }
        Ok(whole as u8)
    }
}

impl Element for i32 {
    ghost says = { IsLong };

    fn read(word: &[u8]) -> Result<i32, Refusal> {
        let whole = whole_in(word)?;
        if whole < -2147483648 || whole > 2147483647 {
            return Err(Refusal::BadText);
        }
        Ok(whole as i32)
    }
}

impl Element for u64 {
    ghost says = { IsDouble };

    fn read(word: &[u8]) -> Result<u64, Refusal> {
        let mut bytes = [0; 8];
        read_hex(word, &mut bytes)?;
        Ok(number_8(&bytes))
    }
}
