//! Laws on admission. Each function has an empty body and stands for its clauses, which hold of every
//! template with what is given beside it.
ghost use Rattle.heat_value.specs.Data.{Members};
ghost use Rattle.hot_admit.specs.Admission.{IsJudgedOneWay};
ghost use Rattle.hot_admit.specs.Plans.{Given};

/// A template is admitted as one plan, or refused for one fault, and never both.
pub fn judgements_are_one()
    ensures { (template : Members) (given : Given) → IsJudgedOneWay template given }
{}
