/// What `ygg --version` prints.
pub const VERSION: &[u8] = b"ygg 0.1.0\n";

/// What `ygg --help` prints.
pub const HELP: &[u8] = b"\
ygg verifies storage software that must survive power failure.

  ygg verify FILE [BUDGET]   decides every proof obligation of the layer file FILE
  ygg certify FILE [BUDGET]  prints a certificate of FILE, where all of them hold
  ygg check FILE CERT        checks that CERT is one, without any search
  ygg print FILE             prints FILE in its one canonical text
  ygg replay FILE SCHEDULE   runs the schedule of an obligation of FILE on values
  ygg explain FILE SCHEDULE  tells what such a run comes to, and which parts of which
                             line of FILE are false there
  ygg play FILE SCRIPT       runs the layers of FILE on a disk in memory
  ygg format FILE IMAGE      makes an image of the disk of FILE, as FILE formats it
  ygg run FILE CERT IMAGE SCRIPT
                             checks CERT, and runs the layers of FILE on IMAGE
  ygg solve CNF [BUDGET]     solves the clauses of CNF, a text in the DIMACS form
  ygg cnf FILE OBLIGATION    prints the clauses of an obligation in that form
  ygg decide FILE OBLIGATION [BUDGET]
                             decides one obligation of FILE
  ygg demo N                 verifies a made file of N operations, from 1 to 64
  ygg --help                 prints this text
  ygg --version              prints the version

BUDGET is how many clauses may be learned, by verify, certify and decide for each
obligation, from 1 to 10000000; left out, it is 200000.

verify prints a line for each obligation, as soon as it is decided:

  holds NAME     no schedule of states, arguments and a crash violates it
  fails NAME     some schedule violates it
  spent NAME K   K clauses were learned, the whole budget, and it is open

certify prints what verify does, where not all of them hold.

decide prints the line that verify does; where the obligation fails, then refuted
NAME and a schedule that violates it.

check prints one line:

  checked N      CERT shows that all N obligations of FILE hold
  bad NAME ID    of NAME, the clause ID of CERT isn't derived as it says; or,
                 where ID is 0, its clauses end and none of them is empty

demo prints one line, at the end. All obligations hold, so it ends with 0, or with
3 where a budget was spent on one:

  demo N obligations K holds H fails F spent S

replay prints one line:

  shows NAME     the schedule violates the obligation that it names
  hypothesis I   the hypothesis of this number, from 0, is the first false one
  holds BITS     the conclusion holds first where the specification picks these

explain prints where the runs end, what the specification allows with each list of
its picks, and each part of relate and always there, at its line and column:

  true WHICH L:C         it holds
  false WHICH L:C A B    it doesn't, since its sides have these values

play prints the disk calls of what the lines of SCRIPT do, and after each:

  done           the call or the background step was whole
  answer VALUE   so was the call, and it gives this
  down           power failed
  up             all layers were woken
  played N       at the end: so many lines call, tick and lost were played

format prints one line:

  formatted      IMAGE is made, and holds the rows with which FILE begins

run prints up when all layers are woken, and for each line of SCRIPT, when it is
done, what play prints after it:

  ran N          at the end: SCRIPT has so many lines, and all were run

solve prints an assignment of all variables, or a log that refutes the clauses:

  satisfiable, and then    v LIT .. 0           the literals that are true
  unsatisfiable, and then  c LIT .. 0 ID .. 0   a clause, and those it is from
                           e                    the end of the log

cnf prints clauses that are satisfiable exactly where the obligation fails.

How commands end, and the last line that they print:

  0  verified N                   all N obligations hold
  0  holds NAME                   decide: the obligation holds
  0  end                          certify: the certificate was printed
  0  checked N                    the certificate is one of the file
  0  the canonical text           print
  0  v LIT .. 0, or e             solve: satisfiable, or unsatisfiable
  0  the text of clauses          cnf
  0  played N                     play: the script was played to its end
  0  formatted                    format: the image is made
  0  ran N                        run: the script was run to its end
  1  refuted NAME                 the first obligation that fails, and then a
                                  schedule that violates it
  1  bad NAME ID                  check, run: the certificate shows nothing
  1  shows NAME                   replay, explain: the obligation is violated
  2  refused NUMBER LINE:COLUMN   the words or a file are refused there
  2  hypothesis I, or holds BITS  replay, explain: the obligation is not violated
  3  undecided                    none fails, and one has spent its budget
  3  undecided                    solve: the budget was spent
  3  spent NAME K                 decide: so it was
  4  fault library                a file could not be read
  4  fault device                 an image could not be read or written
  4  (no such line)               the output failed
  5  (no such line)               no memory was left

Why something is refused, by its number. In a place 0:N the N-th word is meant,
0 being the command; other places count lines and columns from 1:

   1  a byte of 128 or more        24  the certificate ends too early
   2  no token begins so           31  no such line may stand here
   3  no file goes on so           32  the name isn't the one wanted here
   4  a name that means nothing    33  the value hasn't the shape of its name
   5  a name that is taken         34  the schedule ends too early
   6  a width that doesn't fit     41  no such line may stand here
   7  a type that doesn't fit      42  no such operation or background step
   8  a count out of its range     43  not one fitting value for each argument
   9  too long, calls and loops    44  the stop isn't reached
      written out                  51  the image isn't formatted to its end
  10  too many choices             52  the image is of a disk of another size
  11  a file that is too large     53  the image has a bit set that no row has
  21  no header of a certificate   61  no header of clauses
  22  no such line may stand here  62  no such number may stand here
                                   63  more clauses than the header says,
                                       or fewer
                                   71  no such command
                                   72  no number from 1 to the greatest
                                   73  no such file
                                   74  no obligation of this name
";
