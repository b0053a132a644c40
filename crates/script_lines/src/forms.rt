//! The forms of lines, each by its first word.
ghost use Rattle.std.specs.Prelude.{◌≡◌, ◌≢◌, IfOk, IfErr, Ok, Err};
ghost use Rattle.heat_plan.specs.Names.{IsStackName};
ghost use Rattle.script_lines.specs.Readings.{body_line, stack_line, engine_line, lone_line as the_lone_line};
ghost use Rattle.script_lines.specs.Readings.{ReadsBody, ReadsStack, ReadsEngine, ReadsAlone, ReadsTypes, ReadsRun};
ghost use Rattle.script_lines.specs.Readings.{ReadsBehind, ReadsWords};

use crate::behind::{count, engine_no, lone_word, text_behind, word_and_text};
use crate::head::{BodyVerb, EngineVerb, Head, LoneVerb, StackVerb, begins_comment, head_of};
use crate::request::{body_of, value_of};
use crate::words::is_blank;
use crate::{Body, Line, Misread};
use heat_plan::{EngineNo, StackName};
use std::alloc::Global;

/// What a line's first word and the rest are read as.
pub fn words_read(alloc: Global, word: &[u8], rest: &[u8]) -> Result<Line, Misread>
    ensures ok { IfOk result (λ l. ReadsWords word.now rest.now (Ok l)) }
    ensures fault { IfErr result (λ e. e ≢ Misread.Memory → ReadsWords word.now rest.now (Err e)) }
{
    if begins_comment(word) {
        return Ok(Line::Blank);
    }
    behind_read(alloc, head_of(word), rest)
}

// What stands behind a first word that asks for this.
fn behind_read(alloc: Global, head: Head, rest: &[u8]) -> Result<Line, Misread>
    ensures ok { IfOk result (λ l. ReadsBehind head rest.now (Ok l)) }
    ensures fault { IfErr result (λ e. e ≢ Misread.Memory → ReadsBehind head rest.now (Err e)) }
{
    match head {
        Head::WithBody(verb) => body_read(alloc, verb, rest),
        Head::WithStack(verb) => stack_read(alloc, verb, rest),
        Head::WithEngine(verb) => engine_read(verb, rest),
        Head::Alone(verb) => lone_read(verb, rest),
        Head::Types => types_read(alloc, rest),
        Head::Run => run_read(rest),
        Head::Unknown => Err(Misread::L02),
    }
}

// A stack's name, and a body.
fn body_read(alloc: Global, verb: BodyVerb, rest: &[u8]) -> Result<Line, Misread>
    ensures ok { IfOk result (λ l. ReadsBody verb rest.now (Ok l)) }
    ensures fault { IfErr result (λ e. e ≢ Misread.Memory → ReadsBody verb rest.now (Err e)) }
{
    let Some((stack, text)) = word_and_text(rest) else {
        return Err(Misread::L03);
    };
    let name = stack_of(alloc, stack)?;
    match body_of(alloc, text) {
        Ok(body) => Ok(with_body(verb, name, body)),
        Err(why) => Err(why),
    }
}

// What is asked with a stack and a body.
fn with_body(verb: BodyVerb, stack: StackName, body: Body) -> Line
    ensures { result ≡ body_line verb stack body }
{
    match verb {
        BodyVerb::Create => Line::Create(stack, body),
        BodyVerb::Update => Line::Update(stack, body),
    }
}

// The name of a stack.
fn stack_of(alloc: Global, word: &[u8]) -> Result<StackName, Misread>
    ensures ok { IfOk result (λ n. (n ≡ word.now) × IsStackName word.now) }
    ensures fault { IfErr result (λ e. e ≢ Misread.Memory
        → (¬ IsStackName word.now) × (e ≡ Misread.L04)) }
{
    match StackName::read(alloc, word)? {
        Some(name) => Ok(name),
        None => Err(Misread::L04),
    }
}

// A stack's name alone.
fn stack_read(alloc: Global, verb: StackVerb, rest: &[u8]) -> Result<Line, Misread>
    ensures ok { IfOk result (λ l. ReadsStack verb rest.now (Ok l)) }
    ensures fault { IfErr result (λ e. e ≢ Misread.Memory → ReadsStack verb rest.now (Err e)) }
{
    let Some(stack) = lone_word(rest) else {
        return Err(Misread::L03);
    };
    let name = stack_of(alloc, stack)?;
    Ok(with_stack(verb, name))
}

// What is asked of a stack.
fn with_stack(verb: StackVerb, stack: StackName) -> Line
    ensures { result ≡ stack_line verb stack }
{
    match verb {
        StackVerb::Delete => Line::Delete(stack),
        StackVerb::Cancel => Line::Cancel(stack),
        StackVerb::Status => Line::Status(stack),
        StackVerb::Resources => Line::Resources(stack),
        StackVerb::Outputs => Line::Outputs(stack),
    }
}

// An engine's number alone.
fn engine_read(verb: EngineVerb, rest: &[u8]) -> Result<Line, Misread>
    ensures ok { IfOk result (λ l. ReadsEngine verb rest.now (Ok l)) }
    ensures fault { IfErr result (λ e. ReadsEngine verb rest.now (Err e)) }
{
    let Some(word) = lone_word(rest) else {
        return Err(Misread::L03);
    };
    match engine_no(word) {
        Some(engine) => Ok(with_engine(verb, engine)),
        None => Err(Misread::L05),
    }
}

// What is asked of an engine.
fn with_engine(verb: EngineVerb, engine: EngineNo) -> Line
    ensures { result ≡ engine_line verb engine }
{
    match verb {
        EngineVerb::Turn => Line::Turn(engine),
        EngineVerb::Stop => Line::Stop(engine),
    }
}

// Nothing more.
fn lone_read(verb: LoneVerb, rest: &[u8]) -> Result<Line, Misread>
    ensures ok { IfOk result (λ l. ReadsAlone verb rest.now (Ok l)) }
    ensures fault { IfErr result (λ e. ReadsAlone verb rest.now (Err e)) }
{
    if !is_blank(rest) {
        return Err(Misread::L03);
    }
    Ok(lone_line(verb))
}

// What is asked by a word alone.
fn lone_line(verb: LoneVerb) -> Line
    ensures { result ≡ the_lone_line verb }
{
    match verb {
        LoneVerb::Start => Line::Start,
        LoneVerb::Restart => Line::Restart,
    }
}

// A catalogue.
fn types_read(alloc: Global, rest: &[u8]) -> Result<Line, Misread>
    ensures ok { IfOk result (λ l. ReadsTypes rest.now (Ok l)) }
    ensures fault { IfErr result (λ e. e ≢ Misread.Memory → ReadsTypes rest.now (Err e)) }
{
    let Some(text) = text_behind(rest) else {
        return Err(Misread::L03);
    };
    match value_of(alloc, text) {
        Ok(catalogue) => Ok(Line::Types(catalogue)),
        Err(why) => Err(why),
    }
}

// Nothing, or a count of turns.
fn run_read(rest: &[u8]) -> Result<Line, Misread>
    ensures ok { IfOk result (λ l. ReadsRun rest.now (Ok l)) }
    ensures fault { IfErr result (λ e. ReadsRun rest.now (Err e)) }
{
    if is_blank(rest) {
        return Ok(Line::Run(None));
    }
    let Some(word) = lone_word(rest) else {
        return Err(Misread::L03);
    };
    match count(word) {
        Some(count) => Ok(Line::Run(Some(count))),
        None => Err(Misread::L05),
    }
}
