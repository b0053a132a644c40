//! Laws of what was admitted: its calls are in their form, so that no evaluation is at fault for what
//! template checks and admission refuse. Nothing here is run: each function has an empty body and stands
//! for its clauses.
ghost use Rattle.template_laws.specs.Admissions.{AdmittedFaultsByNoForm, AdmittedIsFormed};
ghost use Rattle.template_laws.specs.Plans.{PlansFaultByNoForm};

/// What was admitted is in its form, and so faults by what arguments come to alone, or in what a repeat
/// replaced.
pub fn admitted_faults_by_no_form()
    ensures formed { AdmittedIsFormed }
    ensures faults { AdmittedFaultsByNoForm }
{}

/// So does the plan of a body.
pub fn plans_fault_by_no_form()
    ensures { PlansFaultByNoForm }
{}
