//! What each command takes: files, numbers and options, each with its help.
use crate::help::{
    BEST_HELP, CERTIFICATE_HELP, CONFLICTS_HELP, FROM_HELP, LRAT_HELP, PROFILE_HELP,
    PROFILE_OR_ANY_HELP, PROGRESS_HELP, PROOF_HELP, RESULT_HELP, RESUME_HELP, TIME_LIMIT_HELP,
};
use crate::notes::{CHECK_NOTES, ENCODE_NOTES, EXPLAIN_NOTES, LOWER_NOTES, SOLVE_NOTES};
use crate::words::{
    BEST_OPTION, CHECK, CONFLICTS_OPTION, COST, ENCODE, EXPLAIN, FILE, FROM_OPTION, LOWER,
    LRAT_OPTION, MOST_CONFLICTS, MOST_COST, PROFILE_OPTION, PROFILES, PROFILES_OR_ANY,
    PROGRESS_OPTION, PROOF, PROOF_OPTION, RESULT, RESUME_OPTION, SOLVE, TIME_LIMIT_OPTION,
};
use clap::builder::ValueParser;

/// What a command takes.
#[derive(Clone, Copy)]
pub(crate) struct Parameter<'a> {
    /// Its name.
    pub(crate) id: &'a str,
    /// How it is given.
    pub(crate) form: ParameterForm<'a>,
    /// What its value has to be.
    pub(crate) values: ValueParser<'a>,
    /// Its value if it is not given: one, or none.
    pub(crate) default: &'a [&'a str],
    /// What help says of it.
    pub(crate) help: &'a str,
}

/// How a parameter is given.
#[derive(Clone, Copy)]
pub(crate) enum ParameterForm<'a> {
    /// As a word at its place.
    Word {
        /// Whether it has to be there.
        required: bool,
    },
    /// By `--`, its name and a value, which help calls so.
    Option(&'a str),
    /// By `--` and its name.
    Flag,
}

/// What the program can be asked for.
#[derive(Clone, Copy)]
pub(crate) struct Subcommand<'a> {
    /// Its name.
    pub(crate) name: &'a str,
    /// What it does.
    pub(crate) about: &'a str,
    /// What it takes.
    pub(crate) parameters: &'a [Parameter<'a>],
    /// Whether the help of a parameter stands on lines of its own.
    pub(crate) next_line_help: bool,
    /// How its help ends.
    pub(crate) notes: &'a str,
}

/// The instance.
const INSTANCE: Parameter<'static> = Parameter {
    id: FILE,
    form: ParameterForm::Word { required: true },
    values: ValueParser::String,
    default: &[],
    help: "The instance, a WCNF text",
};

/// The certificate.
const CERTIFICATE: Parameter<'static> = Parameter {
    id: PROOF,
    form: ParameterForm::Word { required: true },
    values: ValueParser::String,
    default: &[],
    help: "The certificate, LRAT as text",
};

/// Which clauses say 'cheaper': `check` wants the profile that the certificate was made in.
const PROFILE: Parameter<'static> = Parameter {
    id: PROFILE_OPTION,
    form: ParameterForm::Option("1|2|3"),
    values: ValueParser::Names(&PROFILES),
    default: &[],
    help: PROFILE_HELP,
};

/// What `wmax solve` takes.
const SOLVE_PARAMETERS: [Parameter<'static>; 9] = [
    Parameter {
        id: CONFLICTS_OPTION,
        form: ParameterForm::Option("N"),
        values: ValueParser::Unsigned(0, MOST_CONFLICTS),
        default: &["1000000000"],
        help: CONFLICTS_HELP,
    },
    Parameter {
        id: TIME_LIMIT_OPTION,
        form: ParameterForm::Option("S"),
        values: ValueParser::Float,
        default: &[],
        help: TIME_LIMIT_HELP,
    },
    Parameter {
        id: PROOF_OPTION,
        form: ParameterForm::Option("PATH"),
        values: ValueParser::String,
        default: &[],
        help: PROOF_HELP,
    },
    Parameter {
        id: RESUME_OPTION,
        form: ParameterForm::Flag,
        values: ValueParser::Bool,
        default: &[],
        help: RESUME_HELP,
    },
    Parameter {
        id: BEST_OPTION,
        form: ParameterForm::Option("PATH"),
        values: ValueParser::String,
        default: &[],
        help: BEST_HELP,
    },
    Parameter {
        id: FROM_OPTION,
        form: ParameterForm::Option("RESULT"),
        values: ValueParser::String,
        default: &[],
        help: FROM_HELP,
    },
    Parameter {
        id: PROGRESS_OPTION,
        form: ParameterForm::Flag,
        values: ValueParser::Bool,
        default: &[],
        help: PROGRESS_HELP,
    },
    PROFILE,
    INSTANCE,
];

/// What `wmax check` takes.
const CHECK_PARAMETERS: [Parameter<'static>; 4] = [
    INSTANCE,
    Parameter {
        id: RESULT,
        form: ParameterForm::Word { required: true },
        values: ValueParser::String,
        default: &[],
        help: RESULT_HELP,
    },
    CERTIFICATE,
    Parameter {
        id: PROFILE_OPTION,
        form: ParameterForm::Option("1|2|3|any"),
        values: ValueParser::Names(&PROFILES_OR_ANY),
        default: &[],
        help: PROFILE_OR_ANY_HELP,
    },
];

/// What `wmax lower` takes.
const LOWER_PARAMETERS: [Parameter<'static>; 2] = [INSTANCE, CERTIFICATE];

/// What `wmax explain` takes.
const EXPLAIN_PARAMETERS: [Parameter<'static>; 3] = [
    INSTANCE,
    Parameter {
        id: RESULT,
        form: ParameterForm::Word { required: false },
        values: ValueParser::String,
        default: &[],
        help: RESULT_HELP,
    },
    Parameter {
        id: PROOF,
        form: ParameterForm::Word { required: false },
        values: ValueParser::String,
        default: &[],
        help: "A certificate of profile 3, or the beginning of one",
    },
];

/// What `wmax encode` takes.
const ENCODE_PARAMETERS: [Parameter<'static>; 5] = [
    INSTANCE,
    Parameter {
        id: COST,
        form: ParameterForm::Word { required: true },
        values: ValueParser::Unsigned(0, MOST_COST),
        default: &[],
        help: "The bound: the formula says 'cheaper than COST'",
    },
    Parameter {
        id: PROOF_OPTION,
        form: ParameterForm::Option("CERTIFICATE"),
        values: ValueParser::String,
        default: &[],
        help: CERTIFICATE_HELP,
    },
    Parameter {
        id: LRAT_OPTION,
        form: ParameterForm::Option("OUT"),
        values: ValueParser::String,
        default: &[],
        help: LRAT_HELP,
    },
    PROFILE,
];

/// The commands, in the order of the help.
pub(crate) const SUBCOMMANDS: [Subcommand<'static>; 5] = [
    Subcommand {
        name: SOLVE,
        about: "Finds a solution of least cost, and proves that nothing is cheaper",
        parameters: &SOLVE_PARAMETERS,
        next_line_help: true,
        notes: SOLVE_NOTES,
    },
    Subcommand {
        name: CHECK,
        about: "Checks a result and the certificate that proves it",
        parameters: &CHECK_PARAMETERS,
        next_line_help: true,
        notes: CHECK_NOTES,
    },
    Subcommand {
        name: LOWER,
        about: "Prints the lower bound that a certificate proves by itself",
        parameters: &LOWER_PARAMETERS,
        next_line_help: false,
        notes: LOWER_NOTES,
    },
    Subcommand {
        name: EXPLAIN,
        about: "Says what a result gives up and breaks, or how large an instance is",
        parameters: &EXPLAIN_PARAMETERS,
        next_line_help: false,
        notes: EXPLAIN_NOTES,
    },
    Subcommand {
        name: ENCODE,
        about: "Prints the formula that a certificate refutes, as DIMACS CNF",
        parameters: &ENCODE_PARAMETERS,
        next_line_help: true,
        notes: ENCODE_NOTES,
    },
];
