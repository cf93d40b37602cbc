//! What a command line asks for, read once: which command, of which files, and how.
use clap::ArgMatches;
use command_line::words::{
    BEST_OPTION, CHECK, CONFLICTS_OPTION, COST, ENCODE, EXPLAIN, FILE, FROM_OPTION, LOWER,
    LRAT_OPTION, PROFILE_OPTION, PROGRESS_OPTION, PROOF, PROOF_OPTION, RESULT, RESUME_OPTION,
    SOLVE, TIME_LIMIT_OPTION,
};

/// A command with its files and options.
#[derive(Clone, Copy, Drop)]
pub enum Request<'a> {
    /// To solve an instance.
    Solve(SolveRequest<'a>),
    /// To check a result and its certificate.
    Check(CheckRequest<'a>),
    /// To say what a certificate proves by itself.
    Lower(LowerRequest<'a>),
    /// To say what a result gives up, or how large an instance is.
    Explain(ExplainRequest<'a>),
    /// To print the formula that a certificate refutes.
    Encode(EncodeRequest<'a>),
}

/// What `solve` is asked for.
#[derive(Clone, Copy, Drop)]
pub struct SolveRequest<'a> {
    /// The file of the instance.
    pub text: &'a str,
    /// The greatest effort, at most 2^62.
    pub limit: u64,
    /// How many seconds the run may take, if it is limited.
    pub seconds: Option<f64>,
    /// The name of the profile, where one is named.
    pub profile: Option<&'a str>,
    /// Where the certificate is written.
    pub proof: Option<&'a str>,
    /// Whether what stands there goes on.
    pub is_resumed: bool,
    /// Where the best solution is kept.
    pub best: Option<&'a str>,
    /// The result with which the search begins.
    pub from: Option<&'a str>,
    /// Whether to report progress.
    pub is_told: bool,
}

/// What `check` is asked for.
#[derive(Clone, Copy, Drop)]
pub struct CheckRequest<'a> {
    /// The file of the instance.
    pub text: &'a str,
    /// The file of the result.
    pub result: &'a str,
    /// The file of the certificate.
    pub proof: &'a str,
    /// The name of the profile, or that of all, where one is named.
    pub profile: Option<&'a str>,
}

/// What `lower` is asked for.
#[derive(Clone, Copy, Drop)]
pub struct LowerRequest<'a> {
    /// The file of the instance.
    pub text: &'a str,
    /// The file of the certificate.
    pub proof: &'a str,
}

/// What `explain` is asked for.
#[derive(Clone, Copy, Drop)]
pub struct ExplainRequest<'a> {
    /// The file of the instance.
    pub text: &'a str,
    /// The file of the result.
    pub result: Option<&'a str>,
    /// The file of the certificate; only behind a result.
    pub proof: Option<&'a str>,
}

/// What `encode` is asked for.
#[derive(Clone, Copy, Drop)]
pub struct EncodeRequest<'a> {
    /// The file of the instance.
    pub text: &'a str,
    /// The bound, below 2^62.
    pub cost: u64,
    /// The certificate that is made plain.
    pub proof: Option<&'a str>,
    /// Where the plain certificate is written.
    pub lrat: Option<&'a str>,
    /// The name of the profile, where one is named.
    pub profile: Option<&'a str>,
}

impl<'a> Request<'a> {
    /// What a command line asks for, once `clap` has read it. `None` where there is no command, or
    /// something that it needs is missing: `clap` lets no such line pass.
    pub fn of(matches: &'a ArgMatches<'_>) -> Option<Self> {
        let (name, found) = matches.subcommand()?;
        match name {
            SOLVE => SolveRequest::of(found),
            CHECK => CheckRequest::of(found),
            LOWER => LowerRequest::of(found),
            EXPLAIN => ExplainRequest::of(found),
            ENCODE => EncodeRequest::of(found),
            _ => None,
        }
    }
}

impl<'a> SolveRequest<'a> {
    fn of(matches: &'a ArgMatches<'_>) -> Option<Request<'a>> {
        Some(Request::Solve(SolveRequest {
            text: matches.get_str(FILE)?,
            limit: matches.get_one::<u64>(CONFLICTS_OPTION)?,
            seconds: matches.get_one::<f64>(TIME_LIMIT_OPTION),
            profile: matches.get_str(PROFILE_OPTION),
            proof: matches.get_str(PROOF_OPTION),
            is_resumed: matches.get_flag(RESUME_OPTION),
            best: matches.get_str(BEST_OPTION),
            from: matches.get_str(FROM_OPTION),
            is_told: matches.get_flag(PROGRESS_OPTION),
        }))
    }
}

impl<'a> CheckRequest<'a> {
    fn of(matches: &'a ArgMatches<'_>) -> Option<Request<'a>> {
        Some(Request::Check(CheckRequest {
            text: matches.get_str(FILE)?,
            result: matches.get_str(RESULT)?,
            proof: matches.get_str(PROOF)?,
            profile: matches.get_str(PROFILE_OPTION),
        }))
    }
}

impl<'a> LowerRequest<'a> {
    fn of(matches: &'a ArgMatches<'_>) -> Option<Request<'a>> {
        Some(Request::Lower(LowerRequest {
            text: matches.get_str(FILE)?,
            proof: matches.get_str(PROOF)?,
        }))
    }
}

impl<'a> ExplainRequest<'a> {
    fn of(matches: &'a ArgMatches<'_>) -> Option<Request<'a>> {
        Some(Request::Explain(ExplainRequest {
            text: matches.get_str(FILE)?,
            result: matches.get_str(RESULT),
            proof: matches.get_str(PROOF),
        }))
    }
}

impl<'a> EncodeRequest<'a> {
    fn of(matches: &'a ArgMatches<'_>) -> Option<Request<'a>> {
        Some(Request::Encode(EncodeRequest {
            text: matches.get_str(FILE)?,
            cost: matches.get_one::<u64>(COST)?,
            proof: matches.get_str(PROOF_OPTION),
            lrat: matches.get_str(LRAT_OPTION),
            profile: matches.get_str(PROFILE_OPTION),
        }))
    }
}
