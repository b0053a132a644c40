//! Whether each row's number is one stack's by its rows, nodes and jobs, and its job one engine's.
ghost use Rattle.std.specs.Prelude.{◌≡◌, ◌++◌, ◌↔◌, IfOk, IsTrue, OnOk, flat_map, map};
ghost use Rattle.step_relation.specs.Images.{IsMade};
ghost use Rattle.step_relation.specs.Linked.{Owned};
ghost use Rattle.state_images.specs.Claims.{graph_claims, holder_claim, job_claim, row_claim, stack_claims};
ghost use Rattle.state_images.specs.Ties.{AreApart};

use crate::claim::{Claim, Claimant};
use crate::numbering::number_of;
use crate::single::are_single;
use core_state::{Graph, Job, Row, State};
use heat_plan::TryCopy;
use std::alloc::{AllocError, Global};

// Whether each row's number is one stack's.
pub(crate) fn is_owned(alloc: Global, s: &State) -> Result<bool, AllocError>
    requires { IsMade s.now.state }
    ensures { IfOk result (λ b. IsTrue b
        ↔ Owned s.now.state.rows s.now.state.graphs s.now.state.jobs) }
{
    are_single(claims_of_stacks(alloc, s)?)
}

// Whether no two jobs have one row.
pub(crate) fn are_apart(alloc: Global, s: &State) -> Result<bool, AllocError>
    requires { IsMade s.now.state }
    ensures { IfOk result (λ b. IsTrue b ↔ AreApart s.now.state.jobs) }
{
    are_single(claims_of_holders(alloc, s.jobs())?)
}

// What the stacks claim.
fn claims_of_stacks(alloc: Global, s: &State) -> Result<Vec<Claim>, AllocError>
    ensures { IfOk result (λ v. v.items ≡ stack_claims s.now.state) }
{
    let mut claims = Vec::new(alloc);
    claim_rows(&mut claims, s.rows())?;
    claim_nodes(&mut claims, s.graphs())?;
    claim_jobs(&mut claims, s.jobs())?;
    Ok(claims)
}

fn claim_rows(claims: &mut Vec<Claim>, rows: &[Row]) -> Result<(), AllocError>
    ensures { OnOk result (claims.new.items ≡ claims.old.items ++ map row_claim rows.now) }
{
    for row in rows {
        let by = Claimant::Stack(row.stack.copy()?);
        claims.push(Claim {
            no: row.no.get(),
            by,
        })?;
    }
    Ok(())
}

fn claim_nodes(claims: &mut Vec<Claim>, graphs: &[Graph]) -> Result<(), AllocError>
    ensures { OnOk result (claims.new.items ≡ claims.old.items ++ flat_map graph_claims graphs.now) }
{
    for graph in graphs {
        claim_nodes_of(claims, graph)?;
    }
    Ok(())
}

fn claim_nodes_of(claims: &mut Vec<Claim>, graph: &Graph) -> Result<(), AllocError>
    ensures { OnOk result (claims.new.items ≡ claims.old.items ++ graph_claims graph.now) }
{
    for node in graph.graph.nodes.as_slice() {
        let by = Claimant::Stack(graph.stack.copy()?);
        claims.push(Claim {
            no: number_of(node),
            by,
        })?;
    }
    Ok(())
}

fn claim_jobs(claims: &mut Vec<Claim>, jobs: &[Job]) -> Result<(), AllocError>
    ensures { OnOk result (claims.new.items ≡ claims.old.items ++ map job_claim jobs.now) }
{
    for job in jobs {
        let by = Claimant::Stack(job.letter.stack.copy()?);
        claims.push(Claim {
            no: job.row.get(),
            by,
        })?;
    }
    Ok(())
}

// What the engines claim.
fn claims_of_holders(alloc: Global, jobs: &[Job]) -> Result<Vec<Claim>, AllocError>
    ensures { IfOk result (λ v. v.items ≡ map holder_claim jobs.now) }
{
    let mut claims = Vec::new(alloc);
    for job in jobs {
        claims.push(Claim {
            no: job.row.get(),
            by: Claimant::Engine(job.engine),
        })?;
    }
    Ok(claims)
}
