//! A certificate of forms and cuts that a reader gives, made plain in two passes: the first tells
//! how many clauses its lines make, which the first line of the formula says.
ghost use Rattle.std.specs.Prelude.{◌≡◌, ◌+◌, ◌<◌, ◌≤◌, [], ◌∷◌, ◌++◌, length, IfErr, IfOk, OnOk};
ghost use Rattle.std.specs.Prelude.{ℕ};
ghost use Rattle.std.specs.List.{flat_map};
ghost use Rattle.std.specs.Io.KnownBytes.{Appends};
ghost use Rattle.cnf.specs.Problem.{Problem};
ghost use Rattle.cnf.specs.declared.limits.TheConstants.{NUMBER_LIMIT};
ghost use Rattle.text.specs.Text.{IsNoFeed, token_lines};
ghost use Rattle.text.specs.Writing.{PassesOn};
ghost use Rattle.bound.specs.Bound.{dimacs_clause, header_line};
ghost use Rattle.bound.specs.Weighted.{weighted_cnf};
ghost use Rattle.lrat_cuts.specs.Cuts.{cuts_start};
ghost use Rattle.lrat_plain.specs.Faults.{IsNoLine};
ghost use Rattle.lrat_plain.specs.Runs.{AreSizes, FaultAfter, FaultWithin, IsBegun};
ghost use Rattle.lrat_plain.specs.Runs.{IsFirstFault};
ghost use Rattle.lrat_plain.specs.Runs.{IsWritten, RunsOn, RunsWhole};
ghost use Rattle.lrat_plain.specs.Steps.{FaultOf, WritesSteps, IsSteady};

use crate::faults::PlainFault;
use crate::plain::Steps;
use crate::spelling::{put_clauses, put_header};
use bound::weighted::weighted_formula;
use cnf::limits::NUMBER_LIMIT;
use cnf::types::{Formula, Instance};
use std::io;
use std::io::{Read, Write};
use text::buffer::LineBuffer;
use text::pieces::split_line;
use text::watched::READ_SIZE;

/// What lines make, as a first pass tells it.
#[derive(Clone, Copy, Debug, PartialEq, Eq, Drop)]
pub struct Sizes {
    /// How many clauses they make.
    pub made: u64,
    /// The greatest variable of the formula and of counts.
    pub variables: u32,
}

/// What a certificate speaks of.
#[derive(Clone, Copy, Drop)]
pub struct Claim<'a> {
    /// The instance.
    pub instance: &'a Instance,
    /// What each cut has to hold for.
    pub cost: u64,
}

/// The lines of a text that comes in pieces.
#[derive(Drop)]
struct Run {
    // After the lines that a line feed has ended.
    steps: Steps,
    // What follows the last line feed.
    rest: LineBuffer,
}

impl Run {
    /// Takes the line that these bytes and a line feed end.
    fn end_line<F: Write, C: Write>(
        &mut self,
        end: &[u8],
        formula: &mut F,
        certificate: &mut C,
    ) -> Result<(), PlainFault>
        requires steady { IsSteady self.old.steps }
        requires kept { IsNoFeed self.old.rest }
        requires no_feed { IsNoFeed end.now }
        ensures runs { OnOk result (RunsOn self.old self.new (end.now ++ 10 ∷ [])
            (F.contents formula.old) (F.contents formula.new)
            (C.contents certificate.old) (C.contents certificate.new)) }
        ensures steady { OnOk result (IsSteady self.new.steps) }
        ensures fault { IfErr result (FaultAfter self.old (end.now ++ 10 ∷ [])) }
    {
        let line = self.rest.line_ended_by(end)?;
        self.steps.take_line(line, formula, certificate)?;
        self.rest.clear();
        Ok(())
    }

    /// Takes the lines that end in the piece, and keeps the bytes behind them.
    fn take_piece<F: Write, C: Write>(
        &mut self,
        piece: &[u8],
        formula: &mut F,
        certificate: &mut C,
    ) -> Result<(), PlainFault>
        requires steady { IsSteady self.old.steps }
        requires kept { IsNoFeed self.old.rest }
        ensures runs { OnOk result (RunsOn self.old self.new piece.now
            (F.contents formula.old) (F.contents formula.new)
            (C.contents certificate.old) (C.contents certificate.new)) }
        ensures steady { OnOk result (IsSteady self.new.steps) }
        ensures fault { IfErr result (FaultAfter self.old piece.now) }
    {
        let mut left = piece;
        while let Some((end, after)) = split_line(left) {
            self.end_line(end, formula, certificate)?;
            left = after;
        }
        self.rest.keep(left)?;
        Ok(())
    }

    /// Takes all lines that the reader gives. What follows the last line feed is one more.
    fn take_all<R: Read, F: Write, C: Write>(
        &mut self,
        proof: &mut R,
        formula: &mut F,
        certificate: &mut C,
    ) -> Result<(), PlainFault>
        requires steady { IsSteady self.old.steps }
        requires kept { IsNoFeed self.old.rest }
        ensures runs { OnOk result (RunsWhole self.old self.new
            (R.remaining proof.old) (R.remaining proof.new)
            (F.contents formula.old) (F.contents formula.new)
            (C.contents certificate.old) (C.contents certificate.new)) }
        ensures fault { IfErr result (FaultWithin self.old.steps.machine self.old.rest
            (R.remaining proof.old) (R.remaining proof.new)) }
    {
        let mut chunk = [0u8; READ_SIZE];
        for _ in 0..u64::MAX {
            let count = match proof.read(&mut chunk) {
                Ok(0) => return self.take_rest(formula, certificate),
                Ok(count) => count,
                Err(_) => return Err(PlainFault::Read),
            };
            self.take_piece(&chunk[..count], formula, certificate)?;
        }
        Err(PlainFault::Read)
    }

    /// Takes all lines; what they make.
    fn measure<R: Read>(&mut self, proof: &mut R) -> Result<Sizes, PlainFault>
        requires steady { IsSteady self.old.steps }
        requires kept { IsNoFeed self.old.rest }
        ensures sizes { IfOk result (λ s. (cost : ℕ) (p : Problem) (given all : ℕ)
            → IsBegun cost p given all self.old
            → AreSizes s cost p (R.remaining proof.old) (R.remaining proof.new)) }
        ensures fault { IfErr result (FaultWithin self.old.steps.machine self.old.rest
            (R.remaining proof.old) (R.remaining proof.new)) }
    {
        self.take_all(proof, &mut io::sink(), &mut io::sink())?;
        Ok(Sizes {
            made: self.steps.names.made(),
            variables: self.steps.machine.forms().variables(),
        })
    }

    /// Writes the formula, and the plain certificate.
    fn write<R: Read, F: Write, C: Write>(
        &mut self,
        outline: Outline<'_>,
        proof: &mut R,
        formula: &mut F,
        certificate: &mut C,
    ) -> Result<(), PlainFault>
        requires steady { IsSteady self.old.steps }
        requires kept { IsNoFeed self.old.rest }
        ensures written { OnOk result ((cost : ℕ) (p : Problem) (given : ℕ)
            → IsBegun cost p given self.old.steps.names.all self.old
            → outline.entry.whole.now ≡ weighted_cnf p
            → given ≡ length outline.entry.whole.now.clauses
            → IsWritten cost p (R.remaining proof.old) (R.remaining proof.new)
            (F.contents formula.old) (F.contents formula.new)
            (C.contents certificate.old) (C.contents certificate.new)) }
        ensures fault { IfErr result (FaultWithin self.old.steps.machine self.old.rest
            (R.remaining proof.old) (R.remaining proof.new)) }
    {
        self.put_given(outline, formula)?;
        self.take_all(proof, formula, certificate)?;
        self.finish(outline.sizes, formula, certificate)
    }

    /// Puts the first line of the formula, and the clauses of the instance.
    fn put_given<F: Write>(
        &mut self,
        outline: Outline<'_>,
        formula: &mut F,
    ) -> Result<(), PlainFault>
        ensures rest { self.new ≡ record self.old {
          steps = record self.old.steps { formula = self.new.steps.formula };
        } }
        ensures text { OnOk result (PassesOn (F.contents formula.old) self.old.steps.formula
            (header_line outline.entry.sizes.variables self.old.steps.names.all
            ++ flat_map dimacs_clause outline.entry.whole.now.clauses)
            (F.contents formula.new) self.new.steps.formula) }
        ensures no_line { IfErr result IsNoLine }
    {
        let block = &mut self.steps.formula;
        let all = self.steps.names.all();
        put_header(block, formula, outline.sizes.variables, all)?;
        put_clauses(block, formula, outline.whole.clauses())?;
        Ok(())
    }

    /// Writes what is not written yet, if the lines make what these sizes say.
    fn finish<F: Write, C: Write>(
        &mut self,
        sizes: Sizes,
        formula: &mut F,
        certificate: &mut C,
    ) -> Result<(), PlainFault>
        ensures variables { OnOk result
            (self.old.steps.machine.state.forms.variables ≡ sizes.variables) }
        ensures made { OnOk result (self.old.steps.names.given + self.old.steps.names.made
            ≡ self.old.steps.names.all) }
        ensures formula { OnOk result (Appends (F.contents formula.old)
            (F.contents formula.new) self.old.steps.formula) }
        ensures certificate { OnOk result (Appends (C.contents certificate.old)
            (C.contents certificate.new) self.old.steps.certificate) }
        ensures no_line { IfErr result IsNoLine }
    {
        let steps = &mut self.steps;
        if !steps.names.are_full() || steps.machine.forms().variables() != sizes.variables {
            return Err(PlainFault::Changed);
        }
        steps.formula.flush(formula)?;
        steps.certificate.flush(certificate)?;
        Ok(())
    }

    /// Takes what follows the last line feed as a line.
    fn take_rest<F: Write, C: Write>(
        &mut self,
        formula: &mut F,
        certificate: &mut C,
    ) -> Result<(), PlainFault>
        requires steady { IsSteady self.old.steps }
        requires kept { IsNoFeed self.old.rest }
        ensures goes { OnOk result (WritesSteps self.old.steps self.new.steps
            (token_lines self.old.rest) (F.contents formula.old) (F.contents formula.new)
            (C.contents certificate.old) (C.contents certificate.new)) }
        ensures fault { IfErr result
            (FaultOf self.old.steps.machine (token_lines self.old.rest)) }
    {
        if self.rest.is_empty() {
            return Ok(());
        }
        self.steps
            .take_line(self.rest.bytes(), formula, certificate)
    }
}

/// A run before the first byte, over a formula of `given` clauses, `all` with those that lines
/// make.
fn begin(claim: Claim<'_>, given: u64, all: u64) -> Result<Run, PlainFault>
    requires within { given ≤ all }
    requires small { all ≤ NUMBER_LIMIT }
    requires given { given ≡ (cuts_start claim.instance.now).last }
    ensures begun { IfOk result (IsBegun claim.entry.cost claim.entry.instance.now given all) }
    ensures no_line { IfErr result IsNoLine }
{
    let Claim { instance, cost } = claim;
    Ok(Run {
        steps: Steps::new(instance, cost, given, all)?,
        rest: LineBuffer::new(instance.allocator()),
    })
}

/// How many clauses the formula has.
///
/// # Errors
///
/// `Memory` where they are more than 2^62.
fn count_given(formula: &Formula) -> Result<u64, PlainFault>
    ensures given { IfOk result (λ given. given ≡ length formula.now.clauses) }
    ensures small { IfOk result (λ given. given ≤ NUMBER_LIMIT) }
    ensures no_line { IfErr result IsNoLine }
{
    let given = formula.clauses().len() as u64;
    if given > NUMBER_LIMIT {
        return Err(PlainFault::Memory);
    }
    Ok(given)
}

/// The first pass: judges each line, and counts the clauses that they make.
///
/// # Errors
///
/// `Line` with the first fault of the certificate; `Memory`; and `Read`, also where there are 2^64
/// lines or more.
pub fn measure<R: Read>(claim: Claim<'_>, proof: &mut R) -> Result<Sizes, PlainFault>
    ensures sizes { IfOk result (λ s. AreSizes s claim.entry.cost claim.entry.instance.now
        (R.remaining proof.old) (R.remaining proof.new)) }
    ensures fault { IfErr result (IsFirstFault claim.entry.cost claim.entry.instance.now
        (R.remaining proof.old) (R.remaining proof.new)) }
{
    let whole = weighted_formula(claim.instance)?;
    measure_over(claim, &whole, proof)
}

/// As `measure`, where this is the formula.
fn measure_over<R: Read>(
    claim: Claim<'_>,
    whole: &Formula,
    proof: &mut R,
) -> Result<Sizes, PlainFault>
    requires { whole.now ≡ weighted_cnf claim.instance.now }
    ensures sizes { IfOk result (λ s. AreSizes s claim.entry.cost claim.entry.instance.now
        (R.remaining proof.old) (R.remaining proof.new)) }
    ensures fault { IfErr result (IsFirstFault claim.entry.cost claim.entry.instance.now
        (R.remaining proof.old) (R.remaining proof.new)) }
{
    let given = count_given(whole)?;
    let mut run = begin(claim, given, NUMBER_LIMIT)?;
    let sizes = run.measure(proof);
    // By a call: that is proved once, and not field by field here.
    drop(run);
    sizes
}

/// The formula of a claim, and what lines make.
#[derive(Clone, Copy, Drop)]
struct Outline<'a> {
    /// The clauses of the instance.
    whole: &'a Formula,
    /// What lines make.
    sizes: Sizes,
}

/// The second pass: writes the formula with all clauses that the lines make, and the plain
/// certificate over it, which refutes it as `law` says. Neither writer is flushed.
///
/// # Errors
///
/// As `measure`; `Changed` where the lines make something else than the sizes say; and `Output`
/// where a writer failed.
pub fn write_plain<R: Read, F: Write, C: Write>(
    claim: Claim<'_>,
    sizes: Sizes,
    proof: &mut R,
    formula: &mut F,
    certificate: &mut C,
) -> Result<(), PlainFault>
    ensures written { OnOk result (IsWritten claim.entry.cost claim.entry.instance.now
        (R.remaining proof.old) (R.remaining proof.new)
        (F.contents formula.old) (F.contents formula.new)
        (C.contents certificate.old) (C.contents certificate.new)) }
    ensures fault { IfErr result (IsFirstFault claim.entry.cost claim.entry.instance.now
        (R.remaining proof.old) (R.remaining proof.new)) }
{
    let whole = weighted_formula(claim.instance)?;
    let outline = Outline {
        whole: &whole,
        sizes,
    };
    write_over(claim, outline, proof, formula, certificate)
}

/// As `write_plain`, where this is the formula.
fn write_over<R: Read, F: Write, C: Write>(
    claim: Claim<'_>,
    outline: Outline<'_>,
    proof: &mut R,
    formula: &mut F,
    certificate: &mut C,
) -> Result<(), PlainFault>
    requires { outline.whole.now ≡ weighted_cnf claim.instance.now }
    ensures written { OnOk result (IsWritten claim.entry.cost claim.entry.instance.now
        (R.remaining proof.old) (R.remaining proof.new)
        (F.contents formula.old) (F.contents formula.new)
        (C.contents certificate.old) (C.contents certificate.new)) }
    ensures fault { IfErr result (IsFirstFault claim.entry.cost claim.entry.instance.now
        (R.remaining proof.old) (R.remaining proof.new)) }
{
    let given = count_given(outline.whole)?;
    if outline.sizes.made > NUMBER_LIMIT - given {
        return Err(PlainFault::Changed);
    }
    let mut run = begin(claim, given, given + outline.sizes.made)?;
    let written = run.write(outline, proof, formula, certificate);
    // By a call: that is proved once, and not field by field here.
    drop(run);
    written
}
