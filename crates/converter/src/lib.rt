// The converter: a stored file's offsets in hours become minutes.

#![tactic(auto)]

ghost use Rattle.std.specs.Prelude.{◌≡◌, ◌+◌, ◌≤◌, length};
ghost use Rattle.derivation.specs.Replies.{reply_of};
ghost use Rattle.bookfile.specs.declared.mark.Form.TheVariants.{Stored};
ghost use Rattle.bookfile.specs.Kinds.{size_at, decoded_rule};
ghost use Rattle.bookfile.specs.Reading.{entry, rules_begin, entries};
ghost use Rattle.bookfile.specs.Replies.{over};
ghost use Rattle.bookfile.specs.Inner.{Listed};
ghost use Rattle.converter.specs.Converting.{converted_record, converted, convert_reply, convert_out};

use bookfile::mark::Form;
use bookfile::reading::{Checked, check_file, decoded_rule, is_in_hours, next_record};
use bookfile::writing::rule_record;
use derivation::{Fault, Refusal};
use slices::copy;

// The record of the rule that begins at a byte, converted.
#[tactic(auto, using(crate::proofs::Writing::records))]
fn converted_record(file: &[u8], at: usize) -> [u8; 12]
    requires { at + size_at file.now at ≤ length file.now }
    ensures { result ≡ converted_record file.now (entry at (decoded_rule file.now at)) }
{
    if is_in_hours(file, at) {
        return rule_record(decoded_rule(file, at));
    }
    let mut record = [0; 12];
    record.copy_from_slice(&file[at..at + 12]);
    record
}

// Writes the converted file over the first bytes of `out`, which is long enough; the bytes behind stay.
#[tactic(auto, using(crate::proofs::Writing::writings))]
fn write_converted(file: &[u8], checked: Checked, out: &mut [u8])
    requires listed { Listed Stored file.now }
    requires begin_is { checked.begin ≡ rules_begin file.now }
    requires rules_are { checked.counts.rules ≡ length (entries Stored file.now) }
    requires out_len_bound { length (converted file.now) ≤ length out.old }
    ensures { out.new ≡ over (converted file.now) out.old }
{
    copy(&file[..checked.begin], &mut out[..checked.begin]);
    let mut at = checked.begin;
    for number in 0..checked.counts.rules {
        let to = checked.begin + number * 12;
        out[to..to + 12].copy_from_slice(&converted_record(file, at));
        at = next_record(file, at);
    }
}

// The converter: writes the converted file from byte 0 of `out` on, and answers its length; where it refuses, nothing is written. Each
// record is copied as it is, but one in hours is written with its rule's offset in minutes.
#[tactic(auto, using(crate::proofs::Writing::conversions))]
pub fn convert(file: &[u8], out: &mut [u8]) -> Result<usize, Refusal>
    ensures said { reply_of (λ bytes. bytes) result ≡ convert_reply file.now (length out.old) }
    ensures left { out.new ≡ convert_out file.now out.old }
{
    let checked = check_file(Form::Stored, file)?;
    let len = checked.begin + checked.counts.rules * 12;
    if out.len() < len {
        return Err(Fault::Length.into());
    }
    write_converted(file, checked, out);
    Ok(len)
}
