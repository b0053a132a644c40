//! Numbers that are drawn: of rows, stacks, traversals, engines and letters.
ghost use Rattle.std.specs.Prelude.{◌↔◌, IsTrue, IfOk, IfErr};
ghost use Rattle.heat_plan.specs.Numbers.{IsNumber};
ghost use Rattle.plan_codec.specs.Numbers.{spelled_number};
ghost use Rattle.plan_codec.specs.Spellings.{Takes, Refuses};

use crate::coding::{Readable, Writable};
use crate::numbers::{number_at, put_number};
use crate::sheet::Sheet;
use crate::unread::Unread;
use heat_plan::{EngineNo, LetterNo, RowNo, StackNo, TravNo, WORN};
use std::alloc::Global;

// A number that may be drawn: from 1 to 2^62 - 1.
fn drawn_at(bytes: &[u8]) -> Result<(u64, &[u8]), Unread>
    ensures ok { IfOk result (λ x. Takes spelled_number IsNumber bytes.now x.0 x.1.now) }
    ensures err { IfErr result (Refuses spelled_number IsNumber bytes.now) }
{
    let (number, rest) = number_at(bytes)?;
    if !is_drawn(number) {
        return Err(Unread::Unspelled);
    }
    Ok((number, rest))
}

// Whether the number may be drawn.
fn is_drawn(number: u64) -> bool
    ensures { IsTrue result ↔ IsNumber number }
{
    number >= 1 && number < WORN
}

impl Readable for RowNo {
    ghost use Rattle.heat_plan.specs.Numbers.{IsNumber};
    ghost use Rattle.plan_codec.specs.Numbers.{spelled_number};
    ghost use Rattle.plan_codec.specs.Laws.{drawn_unique};

    ghost spelled = { spelled_number };

    ghost proper = { IsNumber };

    fn read<'a>(_alloc: Global, bytes: &'a [u8]) -> Result<(RowNo, &'a [u8]), Unread> {
        let (number, rest) = drawn_at(bytes)?;
        match RowNo::new(number) {
            Some(no) => Ok((no, rest)),
            None => unreachable!(),
        }
    }

    ghost unique = { drawn_unique };
}

impl Writable for RowNo {
    fn put(&self, sheet: &mut Sheet) {
        put_number(self.get(), sheet);
    }
}

impl Readable for StackNo {
    ghost use Rattle.heat_plan.specs.Numbers.{IsNumber};
    ghost use Rattle.plan_codec.specs.Numbers.{spelled_number};
    ghost use Rattle.plan_codec.specs.Laws.{drawn_unique};

    ghost spelled = { spelled_number };

    ghost proper = { IsNumber };

    fn read<'a>(_alloc: Global, bytes: &'a [u8]) -> Result<(StackNo, &'a [u8]), Unread> {
        let (number, rest) = drawn_at(bytes)?;
        match StackNo::new(number) {
            Some(no) => Ok((no, rest)),
            None => unreachable!(),
        }
    }

    ghost unique = { drawn_unique };
}

impl Writable for StackNo {
    fn put(&self, sheet: &mut Sheet) {
        put_number(self.get(), sheet);
    }
}

impl Readable for TravNo {
    ghost use Rattle.heat_plan.specs.Numbers.{IsNumber};
    ghost use Rattle.plan_codec.specs.Numbers.{spelled_number};
    ghost use Rattle.plan_codec.specs.Laws.{drawn_unique};

    ghost spelled = { spelled_number };

    ghost proper = { IsNumber };

    fn read<'a>(_alloc: Global, bytes: &'a [u8]) -> Result<(TravNo, &'a [u8]), Unread> {
        let (number, rest) = drawn_at(bytes)?;
        match TravNo::new(number) {
            Some(no) => Ok((no, rest)),
            None => unreachable!(),
        }
    }

    ghost unique = { drawn_unique };
}

impl Writable for TravNo {
    fn put(&self, sheet: &mut Sheet) {
        put_number(self.get(), sheet);
    }
}

impl Readable for EngineNo {
    ghost use Rattle.heat_plan.specs.Numbers.{IsNumber};
    ghost use Rattle.plan_codec.specs.Numbers.{spelled_number};
    ghost use Rattle.plan_codec.specs.Laws.{drawn_unique};

    ghost spelled = { spelled_number };

    ghost proper = { IsNumber };

    fn read<'a>(_alloc: Global, bytes: &'a [u8]) -> Result<(EngineNo, &'a [u8]), Unread> {
        let (number, rest) = drawn_at(bytes)?;
        match EngineNo::new(number) {
            Some(no) => Ok((no, rest)),
            None => unreachable!(),
        }
    }

    ghost unique = { drawn_unique };
}

impl Writable for EngineNo {
    fn put(&self, sheet: &mut Sheet) {
        put_number(self.get(), sheet);
    }
}

impl Readable for LetterNo {
    ghost use Rattle.heat_plan.specs.Numbers.{IsNumber};
    ghost use Rattle.plan_codec.specs.Numbers.{spelled_number};
    ghost use Rattle.plan_codec.specs.Laws.{drawn_unique};

    ghost spelled = { spelled_number };

    ghost proper = { IsNumber };

    fn read<'a>(_alloc: Global, bytes: &'a [u8]) -> Result<(LetterNo, &'a [u8]), Unread> {
        let (number, rest) = drawn_at(bytes)?;
        match LetterNo::new(number) {
            Some(no) => Ok((no, rest)),
            None => unreachable!(),
        }
    }

    ghost unique = { drawn_unique };
}

impl Writable for LetterNo {
    fn put(&self, sheet: &mut Sheet) {
        put_number(self.get(), sheet);
    }
}
