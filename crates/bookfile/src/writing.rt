// The writers of a rule's record and of a plan.
ghost use Rattle.std.specs.Prelude.{◌≡◌, ◌+◌, ◌*◌, ◌≤◌, length};
ghost use Rattle.derivation.specs.Refusals.{verdict};
ghost use Rattle.derivation.specs.Replies.{outcome_reply};
ghost use Rattle.bookfile.specs.Writing.{rule_record, plan_record, plan_checks, with_records, plan_out};

use derivation::{Fault, Refusal};
use maxatom::Rule;

// The record of a rule, with its offset in minutes.
pub fn rule_record(r: Rule) -> [u8; 12]
    ensures { result ≡ rule_record r }
{
    let [x, x_high] = r.x.to_le_bytes();
    let [y, y_high] = r.y.to_le_bytes();
    let [z, z_high] = r.z.to_le_bytes();
    let [first, second, third, fourth] = r.k.to_le_bytes();
    [
        b'R', b'U', x, x_high, y, y_high, z, z_high, first, second, third, fourth,
    ]
}

// The record of one job.
fn plan_record(job: u16, time: i32) -> [u8; 8]
    ensures { result ≡ plan_record job time }
{
    let [low, high] = job.to_le_bytes();
    let [first, second, third, fourth] = time.to_le_bytes();
    [b'P', b'L', low, high, first, second, third, fourth]
}

// A record for each job, one after the other; the other bytes stay.
#[tactic(auto, using(crate::proofs::Plans::put_none))]
fn write_records(times: &[i32], out: &mut [u8], at: usize)
    requires times_len_bound { length times.now ≤ 256 }
    requires times_in_bounds { at + length times.now * 8 ≤ length out.old }
    ensures { out.new ≡ with_records times.now out.old at }
{
    for (job, time) in times.iter().enumerate() {
        let begin = at + job * 8;
        out[begin..begin + 8].copy_from_slice(&plan_record(job as u16, *time));
    }
}

// The plan writer: 8 bytes a job, from a byte of the output on; or the refusal, with nothing written.
#[tactic(auto, using(crate::proofs::Plans::plans))]
pub fn write_plan(times: &[i32], out: &mut [u8], at: usize) -> Result<(), Refusal>
    ensures said { outcome_reply result ≡ verdict (plan_checks times.now out.old at) }
    ensures left { out.new ≡ plan_out times.now out.old at }
{
    let jobs = times.len();
    if jobs < 1 || 256 < jobs {
        return Err(Fault::JobCount.into());
    }
    if out.len() < at || out.len() - at < jobs * 8 {
        return Err(Fault::Length.into());
    }
    write_records(times, out, at);
    Ok(())
}
