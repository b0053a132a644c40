//! An output's line: its value, or why it has none.
ghost use Rattle.std.specs.Prelude.{◌≡◌, IfOk, string_bytes};
ghost use Rattle.heat_value.specs.Data.{Data};
ghost use Rattle.heat_value.specs.Meaning.{data_of};
ghost use Rattle.hot_eval.specs.Answers.{IsMadeOf};
ghost use Rattle.eval_words.specs.Outcomes.{Outcome};
ghost use Rattle.eval_words.specs.Scenes.{scene_of};
ghost use Rattle.report.specs.Outputs.{output_line, outcome_line, output_path, value_line, fault_line};

use heat_plan::{KnownFacts, Output, Plan};
use heat_value::{Path, Step, Text, TryCopy, Value};
use hot_eval::{EvalFault, FaultCode, eval};
use keyed_table::Ordered;
use std::alloc::{AllocError, Global};
use std::cmp::Ordering;

/// The line of the output of this name.
#[derive(Debug)]
pub(crate) struct OutputLine {
    pub(crate) name: Text,
    pub(crate) text: Text,
}

impl Drop for OutputLine {
    fn drop(self) {
        let OutputLine { name: _, text: _ } = self;
    }
}

impl OutputLine {
    /// The line of an output, evaluated with the facts that are known.
    pub(crate) fn of(
        alloc: Global,
        plan: &Plan,
        known: &[KnownFacts],
        output: &Output,
    ) -> Result<OutputLine, AllocError>
        ensures { IfOk result (λ l. l ≡ output_line (scene_of plan.now known.now) output.now) }
    {
        let made = eval(alloc, output.value.as_value(), plan, known);
        let text = outcome_line(alloc, &output.name, made)?;
        Ok(OutputLine {
            name: output.name.copy()?,
            text: Text::from_string(text),
        })
    }
}

// The line of what an output comes to.
fn outcome_line(
    alloc: Global,
    name: &Text,
    made: Result<Value, EvalFault>,
) -> Result<String, AllocError>
    ensures { (o : Outcome Data) → IsMadeOf data_of made o
        → IfOk result (λ s. string_bytes s ≡ outcome_line name.now o) }
{
    match made {
        Ok(value) => value_line(alloc, name, &value),
        Err(EvalFault::Wrong(code, path)) => fault_line(alloc, name, code, path),
        Err(EvalFault::Memory) => Err(AllocError),
    }
}

// The line of an output that has a value.
fn value_line(alloc: Global, name: &Text, value: &Value) -> Result<String, AllocError>
    ensures { IfOk result (λ s. string_bytes s ≡ value_line name.now (data_of value.now)) }
{
    let text = value.text(alloc)?;
    format!(in alloc; "output {} {}\n", name.as_str(), text.as_str())
}

// The line of an output without one: its fault's code and place.
fn fault_line(alloc: Global, name: &Text, code: FaultCode, path: Path) -> Result<String, AllocError>
    ensures { IfOk result (λ s. string_bytes s ≡ fault_line name.now code path) }
{
    let place = from_root(alloc, name, path)?.text(alloc)?;
    format!(in alloc;
        "output {} fault {} {}\n",
        name.as_str(),
        code.text(),
        place.as_str()
    )
}

// A place in an output's value, seen from the template's root.
fn from_root(alloc: Global, name: &Text, path: Path) -> Result<Path, AllocError>
    ensures { IfOk result (λ p. p ≡ output_path name.now path) }
{
    let path = path.under(Step::Key(Text::from_str(alloc, "value")?))?;
    let path = path.under(Step::Key(name.copy()?))?;
    path.under(Step::Key(Text::from_str(alloc, "outputs")?))
}

impl Ordered for OutputLine {
    type Key = Text;

    ghost use Rattle.std.specs.Ordering.{nat_cmp};
    ghost use Rattle.std.specs.Cmp.Lexicographic.{slice_cmp, nat_list_cmp_total};
    ghost use Rattle.report.specs.Outputs.{line_key};

    ghost key_of = { line_key };

    ghost order = { slice_cmp nat_cmp };

    ghost total = { nat_list_cmp_total };

    fn key(&self) -> &Text {
        &self.name
    }

    fn compare(&self, key: &Text) -> Ordering {
        self.name.cmp(key)
    }
}
