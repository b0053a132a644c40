//! Texts and names: how many bytes, and they.
ghost use Rattle.std.specs.Prelude.{◌≡◌, ◌<◌, ◌++◌, IfOk, IfErr, OnOk, OnErr, IsUtf8, length};
ghost use Rattle.heat_plan.specs.Names.{IsStackName, IsResName};
ghost use Rattle.plan_codec.specs.Numbers.{spelled_bytes, IsShort};
ghost use Rattle.plan_codec.specs.Sheets.{behind};
ghost use Rattle.plan_codec.specs.Spellings.{Takes, Refuses};

use crate::coding::{Readable, Writable};
use crate::numbers::{number_at, put_number};
use crate::sheet::Sheet;
use crate::unread::Unread;
use heat_plan::{ResName, StackName};
use heat_value::Text;
use std::alloc::Global;

// The bytes whose length stands at the front, and those behind them.
fn bytes_at(bytes: &[u8]) -> Result<(&[u8], &[u8]), Unread>
    ensures ok { IfOk result (λ x. Takes spelled_bytes IsShort bytes.now x.0.now x.1.now) }
    ensures err { IfErr result (Refuses spelled_bytes IsShort bytes.now) }
{
    let (length, rest) = number_at(bytes)?;
    let (front, rest) = parted(rest, length)?;
    Ok((front, rest))
}

// The first so many bytes, and the others.
fn parted(bytes: &[u8], count: u64) -> Result<(&[u8], &[u8]), Unread>
    ensures whole { IfOk result (λ x. bytes.now ≡ x.0.now ++ x.1.now) }
    ensures count { IfOk result (λ x. length x.0.now ≡ count) }
    ensures short { OnErr result (length bytes.now < count) }
{
    if (bytes.len() as u64) < count {
        return Err(Unread::Unspelled);
    }
    let (front, rest) = bytes.split_at(count as usize);
    Ok((front, rest))
}

// Puts the length of the bytes, and them.
#[tactic(auto, using(crate::proofs::Sheets::puts))]
fn put_bytes(bytes: &[u8], sheet: &mut Sheet)
    ensures bytes { sheet.new ≡ behind sheet.old (spelled_bytes bytes.now) }
    ensures short { IsShort bytes.now }
{
    put_number(bytes.len() as u64, sheet);
    sheet.put_all(bytes);
}

impl Readable for Text {
    ghost use Rattle.plan_codec.specs.Numbers.{spelled_bytes, IsText};
    ghost use Rattle.plan_codec.specs.Laws.{text_unique};

    ghost spelled = { spelled_bytes };

    ghost proper = { IsText };

    fn read<'a>(alloc: Global, bytes: &'a [u8]) -> Result<(Text, &'a [u8]), Unread> {
        let (front, rest) = bytes_at(bytes)?;
        let text = text_of(alloc, front)?;
        Ok((text, rest))
    }

    ghost unique = { text_unique };
}

impl Writable for Text {
    fn put(&self, sheet: &mut Sheet) {
        put_bytes(self.as_str().as_bytes(), sheet);
    }
}

impl Readable for StackName {
    ghost use Rattle.heat_plan.specs.Names.{IsStackName};
    ghost use Rattle.plan_codec.specs.Numbers.{spelled_bytes};
    ghost use Rattle.plan_codec.specs.Laws.{stack_name_unique};

    ghost spelled = { spelled_bytes };

    ghost proper = { IsStackName };

    fn read<'a>(alloc: Global, bytes: &'a [u8]) -> Result<(StackName, &'a [u8]), Unread> {
        let (front, rest) = bytes_at(bytes)?;
        let name = stack_name_of(alloc, front)?;
        Ok((name, rest))
    }

    ghost unique = { stack_name_unique };
}

impl Writable for StackName {
    fn put(&self, sheet: &mut Sheet) {
        put_bytes(self.as_str().as_bytes(), sheet);
    }
}

impl Readable for ResName {
    ghost use Rattle.heat_plan.specs.Names.{IsResName};
    ghost use Rattle.plan_codec.specs.Numbers.{spelled_bytes};
    ghost use Rattle.plan_codec.specs.Laws.{resource_name_unique};

    ghost spelled = { spelled_bytes };

    ghost proper = { IsResName };

    fn read<'a>(alloc: Global, bytes: &'a [u8]) -> Result<(ResName, &'a [u8]), Unread> {
        let (front, rest) = bytes_at(bytes)?;
        let name = resource_name_of(alloc, front)?;
        Ok((name, rest))
    }

    ghost unique = { resource_name_unique };
}

impl Writable for ResName {
    fn put(&self, sheet: &mut Sheet) {
        put_bytes(self.as_str().as_bytes(), sheet);
    }
}

// The text of these bytes.
fn text_of(alloc: Global, bytes: &[u8]) -> Result<Text, Unread>
    ensures value { IfOk result (λ t. t ≡ bytes.now) }
    ensures ok { OnOk result (IsUtf8 bytes.now) }
    ensures err { IfErr result (λ e. e ≡ Unread.Unspelled → ¬ IsUtf8 bytes.now) }
{
    match str::from_utf8(bytes) {
        Ok(text) => Ok(Text::from_str(alloc, text)?),
        Err(_) => Err(Unread::Unspelled),
    }
}

// The name of a stack that these bytes are.
fn stack_name_of(alloc: Global, bytes: &[u8]) -> Result<StackName, Unread>
    ensures value { IfOk result (λ t. t ≡ bytes.now) }
    ensures ok { OnOk result (IsStackName bytes.now) }
    ensures err { IfErr result (λ e. e ≡ Unread.Unspelled → ¬ IsStackName bytes.now) }
{
    match StackName::read(alloc, bytes)? {
        Some(name) => Ok(name),
        None => Err(Unread::Unspelled),
    }
}

// The name of a resource that these bytes are.
fn resource_name_of(alloc: Global, bytes: &[u8]) -> Result<ResName, Unread>
    ensures value { IfOk result (λ t. t ≡ bytes.now) }
    ensures ok { OnOk result (IsResName bytes.now) }
    ensures err { IfErr result (λ e. e ≡ Unread.Unspelled → ¬ IsResName bytes.now) }
{
    match ResName::read(alloc, bytes)? {
        Some(name) => Ok(name),
        None => Err(Unread::Unspelled),
    }
}
