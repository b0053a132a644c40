//! A named test of a text.
ghost use Rattle.std.specs.Prelude.{◌≡◌, Bool};
ghost use Rattle.type_catalog.specs.Names.{is_listed};

use heat_value::{Seq, Text};

/// Tells whether a text is allowed.
pub type Ask = Box<dyn Fn(&Text) -> bool + Send + Sync>;

/// A name, with the texts of which the test of this name is true.
#[derive(Debug)]
pub struct NamedTest {
    pub name: Text,
    pub allowed: Seq<Text>,
}

impl Drop for NamedTest {
    fn drop(self) {
        let NamedTest {
            name: _,
            allowed: _,
        } = self;
    }
}

/// A test under a name, which is true exactly of the texts of its list.
#[derive(Drop)]
pub struct Custom {
    pub test: NamedTest,
    ask: Ask,
    ghost callable: { Ask.IsAlwaysCallable ask },
    ghost exact: { (t : _) (b : Bool) → Ask.post ask t b → b ≡ is_listed test.allowed t.now },
}

impl Custom {
    /// A test under its name, with the texts of which it is true.
    pub fn new(test: NamedTest, ask: Ask) -> Custom
        requires callable { Ask.IsAlwaysCallable ask }
        requires exact { (t : _) (b : Bool) → Ask.post ask t b → b ≡ is_listed test.allowed t.now }
        ensures { result.test ≡ test }
    {
        Custom { test, ask }
    }

    /// Whether the text is allowed.
    pub fn ask(&self, text: &Text) -> bool
        ensures { result ≡ is_listed self.now.test.allowed text.now }
    {
        (self.ask)(text)
    }
}
