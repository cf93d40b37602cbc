//! What stands behind the options in the help of the program and of each command: what it prints,
//! its exit statuses, examples and faults. `clap` breaks no line, so these are broken by hand.

/// Behind that of `wmax solve`.
pub(crate) const SOLVE_NOTES: &str = "\
Prints a line 'o COST' for each solution that is better than all before it, as
soon as it is known, and then one line 's STATUS'. If a solution was found, a
line 'v' comes last, with a bit, 0 or 1, for each variable.

Statuses:
  30  s OPTIMUM FOUND    the bits cost the last COST, and nothing is cheaper
  20  s UNSATISFIABLE    no assignment satisfies the hard clauses
  10  s SATISFIABLE      effort or time ran out; the bits cost the last COST
   0  s UNKNOWN          effort or time ran out before any solution was found
   1  NO and the fault   --from names a wrong result, or --resume goes on with a
                         wrong certificate
   2  FILE or the command line is faulty
   3  a file cannot be opened, read or written, or memory ran out
 141  nobody reads standard output any more, as with '| head -n 1'

If FILE has no clauses at all, the optimum costs 0, and 'warning: no clause was
read' is printed on standard error.

--conflicts N limits the effort. Each learned clause and each reported solution
costs one unit. In profile 3 each cut costs one too, and each round of the
search at least one. A million units take a minute or more. The same N gives the
same answer on every machine, whatever its speed.

In profiles 1 and 2 what is learned stays in memory for the certificate, even
without --proof: 4 bytes for each literal and each hint of a line, which is 0.4
to 2 KB for each conflict. In profile 3 it does not: the certificate is written
during the search.

The certificate proves OPTIMUM FOUND or UNSATISFIABLE to anyone who checks it.
It is complete before the 's' line is printed. Other statuses are not proved. In
profile 3 a certificate whose search has ended early still proves a lower bound
(wmax lower), and another run can go on with it (--resume).

The environment variable WMAX_PROFILE is the profile of solve, check and encode
if --profile is not given:

  export WMAX_PROFILE=3

With --best PATH a run can be stopped at any moment. The same command then goes
on from the solution in PATH, and only a better one replaces it. With --resume
it also goes on from what the certificate proves. --progress shows how far the
run is.

An optimum gives status 30. So in a script that stops at errors, write

  wmax solve a.wcnf > a.result || [ $? = 30 ]

Examples:
  wmax solve --profile 3 --proof a.lrat --best a.best a.wcnf > a.result
  wmax solve --resume --proof a.lrat --best a.best a.wcnf > a.result

Faults:
  error: line N: FirstToken  line N begins with neither 'h', a weight nor 'c'
  error: line N: Weight      the weight is not a number from 1 on: 0, 01, 1.5
  error: line N: Literal     a word is not a literal: x, +1, 01
  error: line N: NoZero      the clause on line N has no 0 at its end
  error: line N: AfterZero   something follows the 0 of the clause
  error: line N: OldForm     a line 'p' comes after a clause or another 'p'
  error: Read NAME           the file NAME cannot be opened or read
  error: Memory              memory ran out
  error: Output              standard output cannot be written
  error: ProofOutput         the certificate cannot be written, or is an input
docs/FAULTS.md and the manual page list the others.";

/// Behind that of `wmax check`.
pub(crate) const CHECK_NOTES: &str = "\
Prints YES, or NO with the first fault and its line. For OPTIMUM FOUND, PROOF
has to refute the formula for 'cheaper than the last o line' or, in profile 3,
to derive by forms and cuts that nothing is cheaper. For UNSATISFIABLE, PROOF
has to refute the hard clauses. SATISFIABLE and UNKNOWN claim nothing that a
certificate could show, so the answer is NO.

Statuses:
   0  YES: the result is true
   1  NO, the first fault, and the line of FILE, RESULT or PROOF that has it
   2  the command line is faulty
   3  a file cannot be read, the verdict cannot be written, or memory ran out

Give the profile that the certificate was made in, by --profile or WMAX_PROFILE.
With another profile the answer is usually NO DeadId 1, NO IdOrder 1, NO
LineForm 1 or the like. --profile any tries all three.

Example:
  wmax check --profile 3 a.wcnf a.result a.lrat

Faults:
  NO Text N                 line N of FILE is faulty: wmax explain says how
  NO ResultForm N           line N of RESULT is not allowed there
  NO BitsLength N           line N has too few or too many bits
  NO NotFeasible N          the bits on line N break a hard clause
  NO CostWrong N            the bits do not cost what line N says
  NO StatusWithoutProof N   the status claims nothing that PROOF could show
  NO DeadId N               line N of PROOF names a clause that is not there
  NO HintNotUnit N          a clause that line N of PROOF names is not unit
  NO NoConflict N           the clauses named on line N of PROOF do not suffice
  NO NoEmptyClause 0        PROOF ends too soon
  NO LineForm N             line N of PROOF is no line of a certificate
  NO CutWorth N             the form does not give the cut or bound on line N
docs/FAULTS.md and the manual page list the others.";

/// Behind that of `wmax lower`.
pub(crate) const LOWER_NOTES: &str = "\
PROOF is read as a certificate of profile 3, or the beginning of one. If it is
correct, prints 'at least L': no solution of FILE costs less than L. L is the
greatest bound that the lines of PROOF prove, or 0 if they prove none. So the
certificate of an optimum gives the cost of that optimum. Prints 'no solution'
if PROOF proves that there is none, as the certificate of an UNSATISFIABLE
result does. If PROOF is not correct, prints NO, the first fault and its line.
Certificates of profiles 1 and 2 usually get a NO: what they prove depends on
their RESULT.

Statuses:
   0  at least L, or no solution
   1  NO, the first fault, and the line of FILE or PROOF that has it
   2  the command line is faulty
   3  a file cannot be read, the answer cannot be written, or memory ran out

Examples:
  wmax solve --profile 3 --proof a.lrat --best a.best a.wcnf
  wmax lower a.wcnf a.lrat

Faults:
  NO Text N        line N of FILE is faulty: wmax explain says how
  NO DeadId N      line N of PROOF names a clause that is not there
  NO NoConflict N  the clauses named on line N of PROOF do not suffice
  NO LineForm N    line N of PROOF is no line of a certificate
  NO CutWorth N    the form does not give the cut or bound on line N
docs/FAULTS.md and the manual page list the others.";

/// Behind that of `wmax explain`.
pub(crate) const EXPLAIN_NOTES: &str = "\
With RESULT: prints its cost, each soft clause that its bits give up, each hard
clause that they break, and the names of the true variables. The soft clauses
come heaviest first, each with its line, its comment and the sum so far. The
comment of a clause is the last one between it and the clause before it.

If RESULT says UNSATISFIABLE: prints hard clauses that contradict each other.
It leaves out those that the contradiction does not need, within a limit of
effort that is the same on every machine. If the limit is too low to find any
contradiction, it says so.

Without RESULT: prints how many variables, hard clauses and soft clauses FILE
has, and the sum of the weights. If FILE is faulty: prints the faulty line and
word, and how to correct it.

With PROOF, if RESULT is correct: also prints what wmax lower prints, and the
gap, which is the cost minus that bound. If PROOF is a regular file, it also
says why: the last form of PROOF is the cost less the facts of some clauses,
counts and groups. These are printed, each with how many times it is taken; if
there are more than ten, those taken most often. Then it prints how many lines
of each kind PROOF has, how many clauses are live after them (unless its ids
leap far), and whether PROOF ends with the empty clause.

Characters that would control a terminal are shown as question marks.

Statuses:
   0  the bits are a solution of the cost that RESULT states, or it has no bits
   1  they are not; RESULT says that there is no solution, but there is one;
      RESULT is no result (NO ResultForm); or PROOF is faulty
   2  FILE or the command line is faulty
   3  a file cannot be read, the output cannot be written, or memory ran out

Examples:
  wmax explain a.wcnf a.result
  wmax explain a.wcnf a.best a.lrat
  wmax explain a.wcnf

Faults:
  error: line N: NoZero  the clause on line N of FILE has no 0 at its end
  NO ResultForm N        line N of RESULT is not allowed there
  error: Read NAME       the file NAME cannot be opened or read
  error: Memory          memory ran out
  error: Output          standard output cannot be written
'wmax solve --help' lists more faults of FILE.
docs/FAULTS.md and the manual page list all.";

/// Behind that of `wmax encode`.
pub(crate) const ENCODE_NOTES: &str = "\
In profiles 1 and 2 the formula is satisfiable exactly when some solution costs
less than COST. So a certificate of an optimum of cost COST refutes it. Other
LRAT checkers can check a certificate against the formula, and any SAT solver
that writes LRAT can make one.

In profile 3 the formula has the hard clauses, and each soft clause of several
literals with a fresh variable. It is the same for each COST. With --proof it
also has the clauses that the lines of CERTIFICATE make, and --lrat writes the
other lines as plain LRAT. They refute the formula if CERTIFICATE ends with the
empty clause.

Statuses:
   0  the formula is written
   2  FILE, CERTIFICATE or the command line is faulty
   3  a file cannot be read, the formula cannot be written, or memory ran out

Examples:
  wmax encode --profile 1 a.wcnf 3 > a.cnf
  wmax encode --profile 3 --proof a.lrat --lrat b.lrat a.wcnf 3 > b.cnf

Faults:
  error: line N: NoZero    the clause on line N of FILE has no 0 at its end
  error: line N: LineForm  line N of CERTIFICATE is no line of a certificate
  error: line N: CutWorth  the form does not give the cut or bound on line N
  error: Read NAME         the file NAME cannot be opened or read
  error: Memory            memory ran out
  error: Output            standard output cannot be written
'wmax solve --help' lists more faults of FILE.
docs/FAULTS.md and the manual page list all.";

/// Behind that of the program.
pub(crate) const NOTES: &str = "\
Statuses: solve ends with 30, 20, 10, 0 or 1; check, lower and explain with 0 or
1; encode with 0. Each ends with 2 or 3 for faults, and with 141, without a
message, if nobody reads its output any more. 'wmax COMMAND --help' says what
they mean.

FILE may be /dev/stdin or a pipe such as <(zcat a.wcnf.gz). The environment
variable WMAX_PROFILE is the profile of solve, check and encode if --profile is
not given.

Examples:
  wmax solve --profile 3 --proof a.lrat a.wcnf > a.result
  wmax check --profile 3 a.wcnf a.result a.lrat
  wmax explain a.wcnf a.result";
