//! Reads arguments one after another: numbers, ports, names, a matrix and a limit.
ghost use Rattle.std.specs.Prelude.{◌≡◌, ◌<◌, ◌^◌, ◌∷◌, ◌++◌, ◌↔◌, [], ℕ, IfErr, IfOk, IfSome, IsErr, IsOk, List, MatchOption, Ok, OnOk, Some, length, position};
ghost use Rattle.std.specs.Char.{is_ascii_digit};
ghost use Rattle.std.specs.Iterator.{YieldsFirstRef, item_count};
ghost use Rattle.std.specs.List.{list_all};
ghost use Rattle.memchr.specs.Find.{is_byte};
ghost use Rattle.tape_types.specs.Ranges.{IsTapeNumber};
ghost use Rattle.day_terms.specs.Values.{ArePorts, COMMA, IsLimitOrLeftOut, IsMatrixOrOne, IsNumber, IsPort, LIMIT_LEFT_OUT, ListPorts, ListSomePorts};
ghost use Rattle.day_terms.specs.Arguments.{IsFirst, words_left, words_of};
ghost use Rattle.day_terms.specs.declared.words_fault.WordsFault.TheVariants.{BadArguments, OutOfMemory};

use crate::names::SEPARATOR;
use crate::terms::LIMIT_LEFT_OUT;
use crate::{WordsFault, matrix_named};
use sale_matrix::Matrix;
use std::alloc::Global;
use std::str;
use tape_types::TapeNumber;

/// The arguments that are left, each ended by a zero byte.
#[derive(Drop)]
pub struct Words<'a> {
    pub rest: &'a [u8],
}

/// Returns the index of the zero byte that ends the first argument, or `None` if there is none.
fn end_of_word(bytes: &[u8]) -> Option<usize>
    ensures { result ≡ position (is_byte 0) bytes.now }
{
    bytes.iter().position(|byte| *byte == 0)
}

/// Returns the first of arguments that are each ended by a zero byte, and the others, or `None` if there is no argument.
pub fn first_argument(bytes: &[u8]) -> Option<(&[u8], &[u8])>
    ensures { MatchOption result (words_of bytes.now ≡ [])
        (λ parts. (words_of bytes.now ≡ parts.0.now ∷ words_of parts.1.now) × (length parts.1.now < length bytes.now)) }
{
    let end = end_of_word(bytes)?;
    Some((&bytes[..end], &bytes[end + 1..]))
}

impl<'a> Iterator for Words<'a> {
    type Item = &'a [u8];

    ghost next_gives = { YieldsFirstRef words_left };

    ghost remaining = { item_count words_left };

    fn next(&mut self) -> Option<&'a [u8]> {
        let end = end_of_word(self.rest)?;
        let word = &self.rest[..end];
        self.rest = &self.rest[end + 1..];
        Some(word)
    }
}

/// Whether all bytes are decimal digits.
fn are_digits(word: &[u8]) -> bool
    ensures { result ≡ list_all is_ascii_digit word.now }
{
    word.iter().all(|byte| byte.is_ascii_digit())
}

/// Returns the number of an argument of decimal digits alone, without a sign, up to 18,446,744,073,709,551,615, or `None`.
/// Leading zeros are accepted.
#[tactic(auto, using(crate::proofs::DigitLemmas::number_read, crate::proofs::DigitLemmas::digits_text, crate::proofs::DigitLemmas::each_read))]
pub fn decimal(word: &[u8]) -> Option<u64>
    ensures number { IfSome result (λ number. IsNumber word.now number) }
    ensures each { (number : ℕ) → IsNumber word.now number → number < 2 ^ 64 → result ≡ Some number }
{
    if !are_digits(word) {
        return None;
    }
    str::from_utf8(word).ok()?.parse::<u64>().ok()
}

/// Returns the port, 1 to 65,535, that decimal digits name.
fn port_of(word: &[u8]) -> Result<u16, WordsFault>
    ensures port { IfOk result (λ port. IsPort word.now port) }
    ensures each { (port : ℕ) → IsPort word.now port → result ≡ Ok port }
    ensures bad { IfErr result (λ fault. fault ≡ BadArguments) }
{
    let number = decimal(word).ok_or(WordsFault::BadArguments)?;
    match u16::try_from(number) {
        Ok(0) | Err(_) => Err(WordsFault::BadArguments),
        Ok(port) => Ok(port),
    }
}

/// Adds the port that an argument names.
fn push_port(ports: &mut Vec<u16>, word: &[u8]) -> Result<(), WordsFault>
    ensures port { OnOk result ((port : ℕ) × IsPort word.now port × (ports.new.items ≡ ports.old.items ++ port ∷ [])) }
    ensures memory { (port : ℕ) → IsPort word.now port → IfErr result (λ fault. fault ≡ OutOfMemory) }
{
    let port = port_of(word)?;
    ports.push(port).map_err(|_| WordsFault::OutOfMemory)
}

/// Returns the index of the comma that ends the first port, or `None` if there is none.
fn end_of_port(text: &[u8]) -> Option<usize>
    ensures { result ≡ position (is_byte COMMA) text.now }
{
    text.iter().position(|byte| *byte == SEPARATOR)
}

/// Checks that a text is ports with single commas between them. It does not allocate.
fn judge_ports(text: &[u8]) -> Result<(), WordsFault>
    ensures ports { IsOk result ↔ ListSomePorts text.now }
    ensures bad { IfErr result (λ fault. fault ≡ BadArguments) }
{
    let mut rest = text;
    while let Some(end) = end_of_port(rest) {
        port_of(&rest[..end])?;
        rest = &rest[end + 1..];
    }
    port_of(rest)?;
    Ok(())
}

/// Returns the ports of a text, which has single commas between them.
pub(crate) fn ports_of(alloc: Global, text: &[u8]) -> Result<Vec<u16>, WordsFault>
    ensures { IfOk result (λ ports. ListPorts text.now ports.items) }
{
    let mut ports = Vec::new(alloc);
    let mut rest = text;
    while let Some(end) = end_of_port(rest) {
        push_port(&mut ports, &rest[..end])?;
        rest = &rest[end + 1..];
    }
    push_port(&mut ports, rest)?;
    Ok(ports)
}

impl<'a> Words<'a> {
    /// Returns the next argument, or `BadArguments` if none is left.
    fn word(&mut self) -> Result<&'a [u8], WordsFault>
        ensures word { IfOk result (λ word. words_left self.old ≡ word.now ∷ words_left self.new) }
        ensures none { IsErr result → words_left self.old ≡ [] }
        ensures bad { IfErr result (λ fault. fault ≡ BadArguments) }
    {
        self.next().ok_or(WordsFault::BadArguments)
    }

    /// Returns the next argument as a number up to 18,446,744,073,709,551,615, or `BadArguments`.
    pub fn number(&mut self) -> Result<u64, WordsFault>
        ensures number { IfOk result (λ number. IsFirst IsNumber (words_left self.old) (words_left self.new) number) }
        ensures each { (left : List (List ℕ)) (number : ℕ) → IsFirst IsNumber (words_left self.old) left number → number < 2 ^ 64 → result ≡ Ok number }
        ensures bad { IfErr result (λ fault. fault ≡ BadArguments) }
    {
        decimal(self.word()?).ok_or(WordsFault::BadArguments)
    }

    /// Returns the next argument as a number up to 65,535, or `BadArguments`.
    pub fn short(&mut self) -> Result<u16, WordsFault>
        ensures number { IfOk result (λ number. IsFirst IsNumber (words_left self.old) (words_left self.new) number) }
        ensures each { (left : List (List ℕ)) (number : ℕ) → IsFirst IsNumber (words_left self.old) left number → number < 2 ^ 16 → result ≡ Ok number }
        ensures bad { IfErr result (λ fault. fault ≡ BadArguments) }
    {
        u16::try_from(self.number()?).map_err(|_| WordsFault::BadArguments)
    }

    /// Returns the next argument as a port, 1 to 65,535, or `BadArguments`.
    pub fn port(&mut self) -> Result<u16, WordsFault>
        ensures port { IfOk result (λ port. IsFirst IsPort (words_left self.old) (words_left self.new) port) }
        ensures each { (left : List (List ℕ)) (port : ℕ) → IsFirst IsPort (words_left self.old) left port → result ≡ Ok port }
        ensures bad { IfErr result (λ fault. fault ≡ BadArguments) }
    {
        match self.short()? {
            0 => Err(WordsFault::BadArguments),
            port => Ok(port),
        }
    }

    /// Returns the next argument as a text of one or more ports with single commas between them, for `ports_of` to read, or
    /// `BadArguments`. It does not allocate.
    pub fn port_list(&mut self) -> Result<&'a [u8], WordsFault>
        ensures ports { IfOk result (λ text. (words_left self.old ≡ text.now ∷ words_left self.new) × ListSomePorts text.now) }
        ensures each { (text : List ℕ) (left : List (List ℕ)) → words_left self.old ≡ text ∷ left → ListSomePorts text → IsOk result }
        ensures bad { IfErr result (λ fault. fault ≡ BadArguments) }
    {
        let text = self.word()?;
        judge_ports(text)?;
        Ok(text)
    }

    /// Returns the next two arguments, the symbols and the participants, or `BadArguments` if one is missing.
    pub fn names(&mut self) -> Result<(&'a [u8], &'a [u8]), WordsFault>
        ensures names { IfOk result (λ names. words_left self.old ≡ names.0.now ∷ names.1.now ∷ words_left self.new) }
        ensures bad { IfErr result (λ fault. fault ≡ BadArguments) }
    {
        Ok((self.word()?, self.word()?))
    }

    /// Returns the next three arguments as the ports of both lines and of the retransmission.
    pub fn feed_ports(&mut self) -> Result<([u16; 2], u16), WordsFault>
        ensures { IfOk result (λ ports. ArePorts (words_left self.old) (words_left self.new) ports.0 ports.1) }
    {
        Ok(([self.port()?, self.port()?], self.port()?))
    }

    /// Returns the next argument as a matrix: Matrix One if no argument is left, `BadArguments` if it is not `1` or `2`.
    pub fn matrix(&mut self) -> Result<Matrix, WordsFault>
        ensures matrix { IfOk result (λ matrix. IsMatrixOrOne (words_left self.old) (words_left self.new) matrix) }
        ensures bad { IfErr result (λ fault. fault ≡ BadArguments) }
    {
        match self.next() {
            None => Ok(Matrix::One),
            Some(word) => matrix_named(word).ok_or(WordsFault::BadArguments),
        }
    }

    /// Returns the next argument as a number of entries, or `LIMIT_LEFT_OUT` if no argument is left.
    #[tactic(auto, unfolding(crate::specs::Arguments::words_of))]
    fn entries(&mut self) -> Result<u32, WordsFault>
        ensures left_out { self.old.rest.now ≡ [] → (result ≡ Ok LIMIT_LEFT_OUT) × (self.new ≡ self.old) }
        ensures read { IfOk result (λ limit. IsLimitOrLeftOut (words_left self.old) (words_left self.new) limit) }
        ensures bad { IfErr result (λ fault. fault ≡ BadArguments) }
    {
        if self.rest.is_empty() {
            return Ok(LIMIT_LEFT_OUT);
        }
        u32::try_from(self.number()?).map_err(|_| WordsFault::BadArguments)
    }

    /// Returns the last argument as the limit of a tape, in entries, or `LIMIT_LEFT_OUT` if no argument is left. It returns
    /// `BadArguments` if the limit is out of range or another argument follows.
    #[tactic(auto, unfolding(crate::specs::Arguments::words_of))]
    pub fn limit(&mut self) -> Result<TapeNumber, WordsFault>
        ensures left_out { self.old.rest.now ≡ [] → result ≡ Ok LIMIT_LEFT_OUT }
        ensures range { IfOk result IsTapeNumber }
        ensures read { IfOk result (λ limit. IsLimitOrLeftOut (words_left self.old) [] limit) }
        ensures last { IfOk result (λ _. self.new.rest.now ≡ []) }
        ensures bad { IfErr result (λ fault. fault ≡ BadArguments) }
    {
        let limit = self.entries()?;
        match TapeNumber::try_new(limit) {
            Some(limit) if self.rest.is_empty() => Ok(limit),
            _ => Err(WordsFault::BadArguments),
        }
    }
}
