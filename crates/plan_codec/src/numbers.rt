//! Numbers and flags.
ghost use Rattle.std.specs.Prelude.{◌≡◌, ◌↔◌, IsTrue, IfOk, IfErr};
ghost use Rattle.plan_codec.specs.Numbers.{spelled_number, IsWord, IsHalfWord};
ghost use Rattle.plan_codec.specs.Sheets.{behind};
ghost use Rattle.plan_codec.specs.Spellings.{Takes, Refuses};

use crate::coding::{Readable, Writable};
use crate::sheet::Sheet;
use crate::unread::Unread;
use std::alloc::Global;

/// The number at the front.
#[tactic(auto, unfolding(crate::specs::Numbers::spelled_number))]
pub(crate) fn number_at(bytes: &[u8]) -> Result<(u64, &[u8]), Unread>
    ensures ok { IfOk result (λ x. Takes spelled_number IsWord bytes.now x.0 x.1.now) }
    ensures err { IfErr result (Refuses spelled_number IsWord bytes.now) }
{
    if bytes.len() < 8 {
        return Err(Unread::Unspelled);
    }
    let (front, rest) = bytes.split_at(8);
    let number = u64::from_be_bytes([
        front[0], front[1], front[2], front[3], front[4], front[5], front[6], front[7],
    ]);
    Ok((number, rest))
}

/// Puts a number.
#[tactic(auto, unfolding(crate::specs::Numbers::spelled_number))]
pub fn put_number(number: u64, sheet: &mut Sheet)
    ensures bytes { sheet.new ≡ behind sheet.old (spelled_number number) }
    ensures word { IsWord number }
{
    sheet.put_all(&number.to_be_bytes());
}

impl Readable for bool {
    ghost use Rattle.plan_codec.specs.Numbers.{spelled_flag, IsAny};
    ghost use Rattle.plan_codec.specs.Laws.{flag_unique};

    ghost spelled = { spelled_flag };

    ghost proper = { IsAny };

    fn read<'a>(_alloc: Global, bytes: &'a [u8]) -> Result<(bool, &'a [u8]), Unread> {
        match bytes {
            [0, rest @ ..] => Ok((false, rest)),
            [1, rest @ ..] => Ok((true, rest)),
            _ => Err(Unread::Unspelled),
        }
    }

    ghost unique = { flag_unique };
}

impl Writable for bool {
    fn put(&self, sheet: &mut Sheet) {
        if *self {
            sheet.put(1);
        } else {
            sheet.put(0);
        }
    }
}

impl Readable for u64 {
    ghost use Rattle.plan_codec.specs.Numbers.{spelled_number, IsWord};
    ghost use Rattle.plan_codec.specs.Laws.{number_unique};

    ghost spelled = { spelled_number };

    ghost proper = { IsWord };

    fn read<'a>(_alloc: Global, bytes: &'a [u8]) -> Result<(u64, &'a [u8]), Unread> {
        number_at(bytes)
    }

    ghost unique = { number_unique };
}

// Whether the number fits four bytes.
fn is_half_word(number: u64) -> bool
    ensures { IsTrue result ↔ IsHalfWord number }
{
    number < 0x1_0000_0000
}

impl Readable for u32 {
    ghost use Rattle.plan_codec.specs.Numbers.{spelled_number, IsHalfWord};
    ghost use Rattle.plan_codec.specs.Laws.{half_word_unique};

    ghost spelled = { spelled_number };

    ghost proper = { IsHalfWord };

    fn read<'a>(_alloc: Global, bytes: &'a [u8]) -> Result<(u32, &'a [u8]), Unread> {
        let (number, rest) = number_at(bytes)?;
        if !is_half_word(number) {
            return Err(Unread::Unspelled);
        }
        Ok((number as u32, rest))
    }

    ghost unique = { half_word_unique };
}

impl Writable for u32 {
    fn put(&self, sheet: &mut Sheet) {
        put_number(*self as u64, sheet);
    }
}
