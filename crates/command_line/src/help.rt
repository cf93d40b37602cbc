//! What help says of each option. It stands on lines of its own, ten columns from the left, and is
//! broken by hand: `clap` breaks no line.

/// The profile of `solve` and `encode`.
pub(crate) const PROFILE_HELP: &str = "\
How 'cheaper' is encoded. The default is WMAX_PROFILE, or 1 if unset.
1: adders add up all weights, column by column;
2: as 1, but soft clauses of one literal get no new variables;
3: forms and cuts: the certificate states lower bounds and what follows
   from them, and it is written during the search.
Profile 3 finds the most optima. check and encode need the profile that
the certificate was made in";

/// The profile of `check`.
pub(crate) const PROFILE_OR_ANY_HELP: &str = "\
The profile that the certificate was made in. The default is
WMAX_PROFILE, or 1 if unset. 'any' tries 3, 2 and 1 until one says YES.
If none does, it prints NO and, of the faults found, the one that comes
latest in PROOF. PROOF is read once for each profile, so it cannot be a
pipe then";

/// The greatest effort.
pub(crate) const CONFLICTS_HELP: &str = "\
Ends the search after N units of effort. A learned clause or a solution
is one unit, in profile 3 also a cut or a round of the search. Time and
memory grow with N. The same N always gives the same answer";

/// The greatest time.
pub(crate) const TIME_LIMIT_HELP: &str = "\
Ends the search S seconds after the program was started, with the best
solution so far, as if the effort were spent. S is above 0, such as 60
or 2.5. The program may run some seconds longer: FILE is always read and
prepared, and the result is written afterwards";

/// Where the certificate is written.
pub(crate) const PROOF_HELP: &str = "\
Writes the LRAT certificate to PATH: at the end of the search, or in
profile 3 during the search. PATH is created or emptied before the
search, unless --resume is given. It must not be FILE or RESULT";

/// Whether the certificate of an earlier run goes on.
pub(crate) const RESUME_HELP: &str = "\
Goes on with the certificate in PATH (--proof) and all that it proves,
wherever an earlier run has ended or was killed. It needs --proof and
implies profile 3. If PATH is missing or empty, a new run begins. So
with

  --best a.best --proof a.lrat --resume

the same command starts a run and goes on with it as often as you like.
If PATH has cuts, a solution of the cost that they were made for is
needed too, in --best or --from. If PATH is not correct for FILE, it is
left as it is, and the fault that lower would report is printed. An
incomplete last line is dropped. If PATH is finished, the answer comes
at once, for the one unit of effort that the solution costs";

/// Where the best solution is kept.
pub(crate) const BEST_HELP: &str = "\
Keeps the best solution in PATH, as a complete result at every moment.
If PATH already has a solution of FILE, the search begins with it. It is
replaced only when this run finds a cheaper solution, or proves that
there is none. Until then PATH stays as it is, byte for byte, even if it
says OPTIMUM FOUND, which this run does not vouch for. A result without
a solution stays until there is a solution or a proof. Anything else in
PATH is refused, and so is a PATH that cannot be written, or that is
FILE or the certificate. Each result is first written to PATH.part";

/// Where the search begins.
pub(crate) const FROM_HELP: &str = "\
Begins with the solution in RESULT, which may come from another solver.
The first o line has its cost or a lower one, and takes one unit of the
effort. The search for cheaper solutions tries the values of that
solution first. If RESULT is not correct for FILE, the fault that check
would report is printed, and there is no search. If RESULT has no
solution (UNKNOWN, UNSATISFIABLE), the search begins without one. If
--best has a cheaper solution, the search begins with that one";

/// Whether progress is told.
pub(crate) const PROGRESS_HELP: &str = "\
Shows on standard error how far the search is: a line at each better
solution and at the end, and between these at most one a second. It has
the seconds so far, the least cost, and how many solutions and conflicts
there were. In profile 3 it also has the lower bound that is proved so
far: 'at least L' says that no solution costs less than L. If this run
has found that bound, the line says how: by cores, by the relaxation or
by conflicts. Costs are whole numbers, so a bound of 290.6 proves 291;
the decimal is shown while the bound is below the cost. The gap is the
cost minus the bound, as a share of the cost, rounded up. The effort is
counted as for --conflicts. A terminal shows only the last line, cut off
at its width";

/// The certificate that `encode` makes plain.
pub(crate) const CERTIFICATE_HELP: &str = "\
Only with --profile 3: prints the formula together with all clauses that
the lines of CERTIFICATE make, if each line is right for COST";

/// Where the plain certificate is written.
pub(crate) const LRAT_HELP: &str = "\
Only with --profile 3 and --proof: also writes the additions and
deletions of CERTIFICATE to OUT, as plain LRAT over the printed formula.
OUT refutes that formula only if CERTIFICATE ends with the empty clause";

/// The result that is checked or explained.
pub(crate) const RESULT_HELP: &str = "The result, as a solver printed it: o, s and v lines";
