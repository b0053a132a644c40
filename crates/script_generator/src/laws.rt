//! What holds of every generated script and its bodies.
ghost use Rattle.std.specs.Prelude.{◌≡◌, ◌≤◌, ℕ, length};
ghost use Rattle.heat_value.specs.Data.{keys_of};
ghost use Rattle.script_generator.specs.Resources.{resources_from};
ghost use Rattle.script_generator.specs.Rising.{KeysRise};
ghost use Rattle.script_generator.specs.Script.{AreSoMany, body_of, lines_of};
ghost use Rattle.script_generator.specs.declared.body.Body.{Body};

/// In each object of a body the keys rise strictly in byte order.
pub fn keys_rise()
    ensures { (body : Body) (n : ℕ) → n ≤ 500 → KeysRise (body_of body n) }
{}

/// A body has as many resources as it is generated for.
pub fn resources_are_so_many()
    ensures { (body : Body) (n : ℕ) → length (keys_of (resources_from body 1 n)) ≡ n }
{}

/// A script has eight lines, and no LF stands within one.
pub fn lines_are_eight()
    ensures { (n : ℕ) → n ≤ 500 → AreSoMany 8 (lines_of n) }
{}
