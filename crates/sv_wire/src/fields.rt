// The fields of items, read from the front of bytes.
ghost use Rattle.std.specs.Prelude.{◌≡◌, length};
ghost use Rattle.sv_wire.specs.Reading.{Gives, serial_at, slot_at, length_at, words_at, text_at};

use crate::flaw::{Flaw, ReadError};
use crate::item::LONGEST_TEXT;
use std::alloc::Global;
use std::str;
use sv_base::Text;

/// A serial number, and the bytes behind it.
#[tactic(auto, unfolding(crate::specs::Reading::serial_at))]
pub fn serial_of(bytes: &[u8]) -> Result<(u64, &[u8]), ReadError>
    ensures { Gives (λ x. (x.0, x.1.now)) result (serial_at bytes.now) }
{
    if bytes.len() < 8 {
        return Err(ReadError::Flaw(Flaw::Wants(8 - bytes.len())));
    }
    let (front, rest) = bytes.split_at(8);
    let number = u64::from_be_bytes([
        front[0], front[1], front[2], front[3], front[4], front[5], front[6], front[7],
    ]);
    Ok((number, rest))
}

/// A slot, and the bytes behind it.
#[tactic(auto, unfolding(crate::specs::Reading::slot_at))]
pub fn slot_of(bytes: &[u8]) -> Result<(u16, &[u8]), ReadError>
    ensures { Gives (λ x. (x.0, x.1.now)) result (slot_at bytes.now) }
{
    if bytes.len() < 2 {
        return Err(ReadError::Flaw(Flaw::Wants(2 - bytes.len())));
    }
    let (front, rest) = bytes.split_at(2);
    let number = u16::from_be_bytes([front[0], front[1]]);
    Ok((number, rest))
}

// The length of a text, and the bytes behind it.
#[tactic(auto, unfolding(crate::specs::Reading::length_at))]
fn length_of(bytes: &[u8]) -> Result<(u32, &[u8]), ReadError>
    ensures { Gives (λ x. (x.0, x.1.now)) result (length_at bytes.now) }
{
    if bytes.len() < 4 {
        return Err(ReadError::Flaw(Flaw::Wants(4 - bytes.len())));
    }
    let (front, rest) = bytes.split_at(4);
    let number = u32::from_be_bytes([front[0], front[1], front[2], front[3]]);
    Ok((number, rest))
}

// So many bytes as a text, and the bytes behind it.
#[tactic(auto, unfolding(crate::specs::Reading::words_at))]
fn words_of(alloc: Global, len: usize, bytes: &[u8]) -> Result<(Text, &[u8]), ReadError>
    ensures { Gives (λ x. (x.0, x.1.now)) result (words_at len bytes.now) }
{
    if len > LONGEST_TEXT {
        return Err(ReadError::Flaw(Flaw::Wrong));
    }
    if bytes.len() < len {
        return Err(ReadError::Flaw(Flaw::Wants(len - bytes.len())));
    }
    let (front, rest) = bytes.split_at(len);
    match str::from_utf8(front) {
        Ok(words) => Ok((Text::new(alloc, words)?, rest)),
        Err(_) => Err(ReadError::Flaw(Flaw::Wrong)),
    }
}

/// A text, and the bytes behind it.
#[tactic(auto, unfolding(crate::specs::Reading::text_at))]
pub fn text_of(alloc: Global, bytes: &[u8]) -> Result<(Text, &[u8]), ReadError>
    ensures { Gives (λ x. (x.0, x.1.now)) result (text_at bytes.now) }
{
    let (len, rest) = length_of(bytes)?;
    words_of(alloc, len as usize, rest)
}
