//! Jobs.
ghost use Rattle.std.specs.Prelude.{◌≡◌, IfOk, IfErr};
ghost use Rattle.plan_codec.specs.Sheets.{behind};
ghost use Rattle.plan_codec.specs.Spellings.{Takes, Refuses};
ghost use Rattle.row_codec.specs.Records.{spelled_job, IsProperJob};
ghost use Rattle.row_codec.specs.RecordLaws.{job_parts};

use crate::letters::put_letter;
use crate::of::Of;
use crate::stages::put_stage;
use mail_table::{Job, Letter, Stage};
use plan_codec::{EngineNo, Readable, RowNo, Sheet, Unread, Writable};
use std::alloc::Global;

// The parts in their order.
type Parts = (EngineNo, (Of<Letter>, (RowNo, Of<Stage>)));

/// The job at the front.
pub(crate) fn job_at(alloc: Global, bytes: &[u8]) -> Result<(Job, &[u8]), Unread>
    ensures ok { IfOk result (λ x. Takes spelled_job IsProperJob bytes.now x.0 x.1.now) }
    ensures err { IfErr result (Refuses spelled_job IsProperJob bytes.now) }
{
    let (parts, rest) = Parts::read(alloc, bytes)?;
    Ok((job_of(parts), rest))
}

// The job of its parts.
#[tactic(auto, unfolding(crate::specs::RecordLaws::job_parts))]
fn job_of(parts: Parts) -> Job
    ensures { result ≡ job_parts.to parts }
{
    let (engine, (letter, (row, stage))) = parts;
    Job {
        engine,
        letter: letter.thing,
        row,
        stage: stage.thing,
    }
}

/// Puts a job.
#[tactic(auto, using(crate::proofs::Puts::puts), unfolding(crate::specs::Records::spelled_job))]
pub(crate) fn put_job(job: &Job, sheet: &mut Sheet)
    ensures bytes { sheet.new ≡ behind sheet.old (spelled_job job.now) }
    ensures proper { IsProperJob job.now }
{
    job.engine.put(sheet);
    put_letter(&job.letter, sheet);
    job.row.put(sheet);
    put_stage(job.stage, sheet);
}
