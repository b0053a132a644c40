//! Laws of evaluation: what an item's properties depend on, and which faults a value may have whose calls
//! are in their form. Nothing here is run: each function has an empty body and stands for its clauses.
ghost use Rattle.template_laws.specs.Faults.{ConditionsFaultByNoForm, PropertiesFaultByNoForm, ValuesFaultByNoForm};
ghost use Rattle.template_laws.specs.Laws.{ReadsOnlyNamed, ReadsOnlyNeeds, ReadsOnlyRead};

/// An item's properties, or their first fault, are the same with any two lists of known facts that tell
/// of the item's needs alone and agree there.
pub fn reads_only_needs()
    ensures { ReadsOnlyNeeds }
{}

/// They are the same with any two that agree at the names which their evaluation looks up, up to its first
/// fault, whatever else is known.
pub fn reads_only_read()
    ensures { ReadsOnlyRead }
{}

/// Where no repeat stands in them, they are the same with any two that agree at the names which the
/// properties refer to, whatever else is known.
pub fn reads_only_named()
    ensures { ReadsOnlyNamed }
{}

/// A value whose calls are in their form and that nests at most 64 deep faults by what arguments come to alone, or in what a repeat
/// replaced; so does a condition, and so do an item's properties.
pub fn faults_by_no_form()
    ensures values { ValuesFaultByNoForm }
    ensures conditions { ConditionsFaultByNoForm }
    ensures properties { PropertiesFaultByNoForm }
{}
