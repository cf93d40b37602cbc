//! `wmax encode --profile 3 --proof`: a certificate of forms and cuts for checkers from elsewhere.
use crate::arguments::EncodeRequest;
use crate::faults::{Fault, end_output, is_regular, open, say};
use bound::encoding::WatchedWriter;
use lrat_plain::faults::PlainFault;
use lrat_plain::streams::{Claim, Sizes, measure, write_plain};
use report_text::fault::RunFault;
use report_text::printing::deliver;
use std::io::{self, Read, Write};
use std::mem::ManuallyDrop;
use std::rt::Files;
use wcnf::reading::read_from;
use wmax_onlooker::file_id::{FileId, empty, find_file_id, find_path_id, open_proof};
use wmax_onlooker::standard_error::Messages;
use wmax_onlooker::standard_output::standard_output;

/// What is said of a certificate that cannot be read twice.
const NO_FILE: &str = "error: encode --profile 3 needs a regular file as CERTIFICATE";

/// What is said of a certificate that is not the same the second time.
const CHANGED: &str = "error: CERTIFICATE has changed while it was read";

/// Prints the formula with all clauses that the lines of the certificate at this path make, each
/// judged for the cost. With `--lrat` its additions and deletions go into that file, with the ids
/// that the formula gives. The certificate is read twice: nothing is printed where it is faulty.
pub(crate) fn encode_plain<'a, R: Files + AllocGlobal + Print, E: Write, T: Read>(
    rt: &R,
    messages: &mut Messages<'_, E>,
    request: &EncodeRequest<'a>,
    text: &mut T,
    path: &'a str,
) -> Result<u8, Fault<'a>> {
    let mut proof = open(rt, path)?;
    if !is_regular(rt, path) {
        say(messages, NO_FILE);
        return Ok(2);
    }
    let instance = match read_from(rt.alloc(), text) {
        Ok(instance) => ManuallyDrop::new(instance),
        Err(fault) => return Err(Fault::Run(fault.into())),
    };
    let claim = Claim {
        instance: &instance,
        cost: request.cost,
    };
    match read_twice(rt, request, claim, &mut proof, path)? {
        Ok(()) => Ok(0),
        Err(fault) => tell_plain(messages, fault, path),
    }
}

/// The first pass, and the second where that finds no fault.
fn read_twice<'a, R: Files + AllocGlobal + Print, P: Read>(
    rt: &R,
    request: &EncodeRequest<'a>,
    claim: Claim<'_>,
    proof: &mut P,
    path: &'a str,
) -> Result<Result<(), PlainFault>, Fault<'a>> {
    match measure(claim, proof) {
        Ok(sizes) => write_twice(rt, request, claim, sizes, path),
        Err(fault) => Ok(Err(fault)),
    }
}

/// The second pass, where the first found these sizes.
fn write_twice<'a, R: Files + AllocGlobal + Print>(
    rt: &R,
    request: &EncodeRequest<'a>,
    claim: Claim<'_>,
    sizes: Sizes,
    path: &'a str,
) -> Result<Result<(), PlainFault>, Fault<'a>> {
    let mut proof = open(rt, path)?;
    let Some(out) = request.lrat else {
        return print_formula(rt, claim, sizes, &mut proof, &mut io::sink());
    };
    let read = read_files(rt, request, &proof, path)?;
    let mut certificate = open_proof(rt, out, read)?;
    if !empty(&certificate) {
        return Err(Fault::Run(RunFault::ProofOutput));
    }
    print_formula(rt, claim, sizes, &mut proof, &mut certificate)
}

/// The files that are read: FILE and the certificate, which is open.
fn read_files<'a, R: Files>(
    rt: &R,
    request: &EncodeRequest<'a>,
    proof: &R::File,
    path: &'a str,
) -> Result<[FileId; 2], Fault<'a>> {
    let Some(here) = find_path_id(rt, request.text) else {
        return Err(Fault::Unreadable(request.text));
    };
    let Some(there) = find_file_id(proof) else {
        return Err(Fault::Unreadable(path));
    };
    Ok([here, there])
}

/// Prints the formula, and writes the plain certificate.
fn print_formula<'a, R: Print, P: Read, C: Write>(
    rt: &R,
    claim: Claim<'_>,
    sizes: Sizes,
    proof: &mut P,
    certificate: &mut C,
) -> Result<Result<(), PlainFault>, Fault<'a>> {
    let mut out = standard_output(rt);
    let written = match write_both(claim, sizes, proof, &mut out, certificate) {
        Ok(Ok(())) => deliver(Ok(()), &mut out),
        Ok(Err(fault)) => return Ok(Err(fault)),
        Err(fault) => Err(fault),
    };
    end_output(written.map(|()| 0), out.is_closed())?;
    Ok(Ok(()))
}

/// Writes the formula and the plain certificate.
///
/// # Errors
///
/// `Output` where the writer of the formula failed, `ProofOutput` where that of the certificate
/// did.
fn write_both<P: Read, W: Write, C: Write>(
    claim: Claim<'_>,
    sizes: Sizes,
    proof: &mut P,
    out: &mut W,
    certificate: &mut C,
) -> Result<Result<(), PlainFault>, RunFault> {
    let mut watched = WatchedWriter::new(out);
    match write_plain(claim, sizes, proof, &mut watched, certificate) {
        Ok(()) => Ok(Ok(())),
        Err(PlainFault::Output) if watched.has_failed() => Err(RunFault::Output),
        Err(PlainFault::Output) => Err(RunFault::ProofOutput),
        Err(fault) => Ok(Err(fault)),
    }
}

/// Tells why there is no plain certificate; the exit status.
fn tell_plain<'a, E: Write>(
    messages: &mut Messages<'_, E>,
    fault: PlainFault,
    path: &'a str,
) -> Result<u8, Fault<'a>> {
    match fault {
        PlainFault::Line(cause, line) => {
            let _ = writeln!(messages.below(), "error: line {line}: {cause:?}");
            Ok(2)
        }
        PlainFault::Changed => {
            say(messages, CHANGED);
            Ok(3)
        }
        PlainFault::Memory => Err(Fault::Run(RunFault::Memory)),
        PlainFault::Read => Err(Fault::Unreadable(path)),
        PlainFault::Output => Err(Fault::Run(RunFault::Output)),
    }
}
