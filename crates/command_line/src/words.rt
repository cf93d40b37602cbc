//! The words of the command line: commands, what they take, profiles, and the greatest numbers.
ghost use Rattle.std.specs.Prelude.{◌≡◌};
ghost use Rattle.command_line.specs.Profiles.{profile_named};

use adder::profiles::Profile;
use cnf::limits::NUMBER_LIMIT;

/// The command that solves an instance.
pub const SOLVE: &str = "solve";

/// The command that checks a result and its certificate.
pub const CHECK: &str = "check";

/// The command that says what a certificate proves by itself.
pub const LOWER: &str = "lower";

/// The command that says what a result gives up, or how large an instance is.
pub const EXPLAIN: &str = "explain";

/// The command that prints the formula that a certificate refutes.
pub const ENCODE: &str = "encode";

/// The instance, which each command reads.
pub const FILE: &str = "FILE";

/// The result that is checked or explained.
pub const RESULT: &str = "RESULT";

/// The certificate that is checked, or says how much it proves.
pub const PROOF: &str = "PROOF";

/// The cost that solutions of the printed formula stay below.
pub const COST: &str = "COST";

/// The greatest effort of a search.
pub const CONFLICTS_OPTION: &str = "conflicts";

/// How many seconds a search may take.
pub const TIME_LIMIT_OPTION: &str = "time-limit";

/// The file that the certificate is written to.
pub const PROOF_OPTION: &str = "proof";

/// Whether the certificate of an earlier run goes on.
pub const RESUME_OPTION: &str = "resume";

/// The file that keeps the best solution so far, from which the next run goes on.
pub const BEST_OPTION: &str = "best";

/// The file that the plain certificate is written to.
pub const LRAT_OPTION: &str = "lrat";

/// The result that a search begins with.
pub const FROM_OPTION: &str = "from";

/// Whether the search tells on standard error how far it is.
pub const PROGRESS_OPTION: &str = "progress";

/// The profile, which says which clauses stand for 'cheaper'.
pub const PROFILE_OPTION: &str = "profile";

/// The names of the profiles.
pub(crate) const PROFILES: [&str; 3] = ["1", "2", "3"];

/// What `check` calls each of them in turn.
pub const ANY: &str = "any";

/// The names that `check` takes.
pub(crate) const PROFILES_OR_ANY: [&str; 4] = ["1", "2", "3", ANY];

/// The greatest cost: weights of an instance sum to less than 2^62.
pub const MOST_COST: u64 = NUMBER_LIMIT - 1;

/// The greatest effort, 2^62.
pub const MOST_CONFLICTS: u64 = NUMBER_LIMIT;

/// The profile of this name, 1 or 2: in profile 3 no formula says 'cheaper'.
pub fn pick_profile(name: &str) -> Option<Profile>
    ensures { result ≡ profile_named name.now }
{
    match name.as_bytes() {
        [b'1'] => Some(Profile::One),
        [b'2'] => Some(Profile::Two),
        _ => None,
    }
}
