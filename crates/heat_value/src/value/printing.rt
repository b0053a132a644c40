//! A value's text: compact JSON.
ghost use Rattle.std.specs.Prelude.{◌≡◌, ◌++◌, OnOk, IfOk, string_bytes, false};
ghost use Rattle.json.specs.Print.{quoted};
ghost use Rattle.serde_json.specs.Find.{of_integer};
ghost use Rattle.serde_json.specs.Written.{number_text};
ghost use Rattle.heat_value.specs.Compact.{compact, nodes_text, fields_text};

use crate::{Items, Props, Text, Value};
use serde_json::Value as Json;
use std::alloc::{AllocError, Global};

impl Value {
    ghost use Rattle.heat_value.specs.Meaning.{data_of};

    /// The compact JSON of the value.
    pub fn text(&self, alloc: Global) -> Result<Text, AllocError>
        ensures { IfOk result (λ t. t ≡ compact (data_of self.now)) }
    {
        let mut out = String::new(alloc);
        self.write(alloc, &mut out)?;
        Ok(Text::from_string(out))
    }

    // Adds the value's text.
    #[cycle(writes)]
    fn write(&self, alloc: Global, out: &mut String) -> Result<(), AllocError>
        ensures { OnOk result (string_bytes out.new ≡ string_bytes out.old ++ compact (data_of self.now)) }
    {
        match self {
            Value::Null => out.push_str("null"),
            Value::Flag(true) => out.push_str("true"),
            Value::Flag(false) => out.push_str("false"),
            Value::Whole(whole) => write_whole(alloc, out, *whole),
            Value::Words(words) => write_words(alloc, out, words.as_str()),
            Value::Items(items) => {
                out.push_str("[")?;
                items.write(alloc, out)
            }
            Value::Fields(fields) => {
                out.push_str("{")?;
                fields.write(alloc, out)
            }
        }
    }
}

impl Items {
    // Adds the items and the closing bracket.
    #[cycle(writes)]
    fn write(&self, alloc: Global, out: &mut String) -> Result<(), AllocError>
        ensures { OnOk result (string_bytes out.new ≡ string_bytes out.old ++ nodes_text false self.now) }
    {
        let mut later = false;
        for value in self.all.iter() {
            if later {
                out.push_str(",")?;
            }
            value.write(alloc, out)?;
            later = true;
        }
        out.push_str("]")
    }
}

impl Props {
    // Adds the members and the closing brace.
    #[cycle(writes)]
    fn write(&self, alloc: Global, out: &mut String) -> Result<(), AllocError>
        ensures { OnOk result (string_bytes out.new ≡ string_bytes out.old ++ fields_text false self.now) }
    {
        let mut later = false;
        for member in self.members.iter() {
            if later {
                out.push_str(",")?;
            }
            write_words(alloc, out, member.key.as_str())?;
            out.push_str(":")?;
            member.value.write(alloc, out)?;
            later = true;
        }
        out.push_str("}")
    }
}

/// Adds a number's text.
pub fn write_whole(alloc: Global, out: &mut String, whole: i64) -> Result<(), AllocError>
    ensures { OnOk result (string_bytes out.new ≡ string_bytes out.old ++ number_text (of_integer whole)) }
{
    let text = Json::from(whole).to_string(alloc)?;
    out.push_str(text.as_str())
}

/// Adds a text in quotes, with its escapes.
pub fn write_words(alloc: Global, out: &mut String, words: &str) -> Result<(), AllocError>
    ensures { OnOk result (string_bytes out.new ≡ string_bytes out.old ++ quoted words.now) }
{
    let text = Json::try_from_str(alloc, words)?.to_string(alloc)?;
    out.push_str(text.as_str())
}
