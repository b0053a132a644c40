//! Where an evaluation ends: at the sum of its costs, at the size of its result, and where it repeats itself.
use crate::cases::{Case, Count, Counter, Teller, all_counted, all_told, value_of};
use crate::plans::{eval_fault_words, plan_of};
use heat_value::Value;
use hot_eval::eval;
use std::alloc::{AllocError, Global};

// What a value comes to: that it is made, or the fault.
fn made(alloc: Global, given: &Value) -> Result<String, AllocError> {
    let plan = plan_of(alloc)?;
    match eval(alloc, given, &plan, &[]) {
        Ok(_) => String::from_str(alloc, "made"),
        Err(fault) => eval_fault_words(alloc, &fault),
    }
}

// The same of a text in single quotes.
fn made_of(alloc: Global, text: &str) -> Result<String, AllocError> {
    match value_of(alloc, text)? {
        Some(value) => made(alloc, &value),
        None => String::from_str(alloc, "no value"),
    }
}

// Adds a text so many times.
fn push_times(text: &mut String, part: &str, times: usize) -> Result<(), AllocError> {
    for _ in 0..times {
        text.push_str(part)?;
    }
    Ok(())
}

// Adds a repeat of so many choices, each of which gives a long text to a function.
fn push_repeat(text: &mut String, count: usize) -> Result<(), AllocError> {
    text.push_str("{'repeat':{'template':{'contains':['z','")?;
    push_times(text, "yyyyyyyyyy", 10_000)?;
    text.push_str("']},'for_each':{'%k%':['a'")?;
    push_times(text, ",'a'", count.saturating_sub(1))?;
    text.push_str("]}}}")
}

// What such a repeat comes to.
struct Repeated;

impl Counter for Repeated {
    fn told_of(&self, alloc: Global, count: usize) -> Result<String, AllocError> {
        let mut text = String::new(alloc);
        push_repeat(&mut text, count)?;
        made_of(alloc, text.as_str())
    }
}

// What 83 choices leave is counted below.
const CHOICES: &[Count] = &[(84, "F07 []")];

// What a function of a text of so many bytes comes to behind such a repeat of 83 choices.
struct Behind;

impl Counter for Behind {
    fn told_of(&self, alloc: Global, count: usize) -> Result<String, AllocError> {
        let mut text = String::from_str(alloc, "[")?;
        push_repeat(&mut text, 83)?;
        text.push_str(",{'contains':['z','")?;
        push_times(&mut text, "y", count)?;
        text.push_str("']}]")?;
        made_of(alloc, text.as_str())
    }
}

// 83 choices cost 16,703,708 with the repeat; the function costs 13 more than its text has bytes.
const LEFT: &[Count] = &[(73_495, "made"), (73_496, "F07 [1]")];

#[test]
fn costs_end_an_evaluation(rt: HostRuntime) -> Result<(), AllocError> {
    all_counted(&rt, &Repeated, CHOICES)?;
    all_counted(&rt, &Behind, LEFT)
}

// What a list comes to of many numbers, and this behind them.
struct Concatenated;

impl Teller for Concatenated {
    fn told(&self, alloc: Global, given: &str) -> Result<String, AllocError> {
        let mut text = String::from_str(alloc, "{'list_concat':[[")?;
        push_times(&mut text, "1234567,", 131_071)?;
        text.push_str(given)?;
        text.push_str("]]}")?;
        made_of(alloc, text.as_str())
    }
}

const LAST: &[Case] = &[("12345", "made"), ("1234567", "F06 []")];

#[test]
fn results_have_a_limit(rt: HostRuntime) -> Result<(), AllocError> {
    all_told(&rt, &Concatenated, LAST)
}

// What a repeat comes to of this template, in single quotes, whose choices are the parameter `again`.
struct Endless;

impl Teller for Endless {
    fn told(&self, alloc: Global, given: &str) -> Result<String, AllocError> {
        let text = format!(in alloc;
            "{{'repeat':{{'template':{given},'for_each':{{'x':{{'get_param':'again'}}}}}}}}"
        )?;
        made_of(alloc, text.as_str())
    }
}

// One that repeats itself, and one that nests deeper each time.
const ENDLESS: &[Case] = &[
    ("'x'", "F07 ['repeat','template']"),
    ("{'y':'x'}", "F07 ['repeat','template','y']"),
];

#[test]
fn a_template_that_repeats_itself_ends(rt: HostRuntime) -> Result<(), AllocError> {
    all_told(&rt, &Endless, ENDLESS)
}
