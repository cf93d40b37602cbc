//! What there is of an instance, for a person who has no result of it: how many variables and
//! clauses, and the sum of the weights.
ghost use Rattle.std.specs.Prelude.{◌≡◌, sum_by, OnOk, IfErr};
ghost use Rattle.text.specs.Writing.{Writes};
ghost use Rattle.explain_text.specs.Sheets.{Displays};
ghost use Rattle.explain.specs.Summary.{Summarises, LeavesSummary, counts_text, summary_text};

use crate::explaining::{ExplainFault, read_text};
use cnf::types::Instance;
use explain_text::sheet::Sheet;
use std::alloc::Global;
use std::io::Write;
use text::output::WriteFault;

/// Writes how many variables, hard and soft clauses there are, and the sum of the weights: `text`
/// is the instance in the WCNF of the MaxSAT Evaluation 2022 or of the years before.
///
/// # Errors
///
/// `Text`, `Memory` and `Output`, as `write_explanation`. Nothing is written before the first two.
pub fn write_summary<W: Write>(
    alloc: Global,
    text: &[u8],
    writer: &mut W,
) -> Result<(), ExplainFault>
    ensures ok { OnOk result
        (Summarises text.now (W.contents writer.old) (W.contents writer.new)) }
    ensures fault { IfErr result (λ fault. LeavesSummary fault text.now
        (W.contents writer.old) (W.contents writer.new)) }
{
    let instance = read_text(alloc, text)?;
    match write_counts(&instance, writer) {
        Ok(()) => Ok(()),
        Err(_) => Err(ExplainFault::Output),
    }
}

/// Writes what there is of an instance.
fn write_counts<W: Write>(instance: &Instance, writer: &mut W) -> Result<(), WriteFault>
    ensures { Writes result (W.contents writer.old) (summary_text instance.now)
        (W.contents writer.new) }
{
    let counts = Counts {
        vars: instance.vars(),
        hard: instance.hard().len(),
        soft: instance.soft().len(),
        weights: sum_weights(instance),
    };
    let mut sheet = Sheet::new();
    put_counts(&mut sheet, writer, counts);
    sheet.finish(writer)
}

/// What an instance has.
#[derive(Drop)]
struct Counts {
    /// The number of variables.
    vars: u32,
    /// The number of hard clauses.
    hard: usize,
    /// The number of soft clauses.
    soft: usize,
    /// The sum of their weights: below 2^62.
    weights: u64,
}

/// The sum of the weights.
fn sum_weights(instance: &Instance) -> u64
    ensures { result ≡ sum_by (λ s. s.weight) instance.now.soft }
{
    instance.limits();
    instance.soft().iter().map(|soft| soft.weight()).sum()
}

/// Each number, on a line of its own.
fn put_counts<W: Write>(sheet: &mut Sheet, writer: &mut W, counts: Counts)
    ensures { Displays (W.contents writer.old) sheet.old
        (counts_text counts.vars counts.hard counts.soft counts.weights)
        (W.contents writer.new) sheet.new }
{
    sheet.put(writer, b"variables: ");
    sheet.put_number(writer, counts.vars as u64);
    sheet.put(writer, b"\nhard clauses: ");
    sheet.put_number(writer, counts.hard as u64);
    sheet.put(writer, b"\nsoft clauses: ");
    sheet.put_number(writer, counts.soft as u64);
    sheet.put(writer, b"\nsum of weights: ");
    sheet.put_number(writer, counts.weights);
    sheet.put(writer, b"\n");
}
