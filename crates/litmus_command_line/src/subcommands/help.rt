//! The longer texts of the program's help.

/// What is below the subcommands.
pub const TOP: &str = "\
Where a file can't be read, or a line in it is wrong, add --explain to script, litmus, walk, run, test,
check or judge: the error then says why, or what could stand there.";

/// What is below the options of `script`.
pub const SCRIPT: &str = "\
Commands:
  issue 0 5 add 8 1   core 0 asks, under tag 5, to add 1 to word 8
                      (or load 8, store 8 VALUE, cas 8 EXPECTED NEW)
  evict 0 1           core 0 gives up its copy of line 1
  deliver req 1 0     delivers core 0's request for line 1
                      (or fwd 1 0, data 1 0, ack 1 TO FROM, home 1)
  pump 100            delivers whatever waits, at most 100 times
  hand 0 0            hands out core 0's next reply of slice 0, and frees its tag
  word 8              shows word 8, once its slice is quiet
  state 1             shows the directory's entry of line 1, and each core's copy
  waiting             shows the messages in flight, and whether each can be delivered
  show                shows all that isn't at rest: copies, what waits for them, replies
  stats               shows what was counted
  log 0               shows what slice 0 performed, as a trace for 'lockup check'

Lines before the first command configure the machine: cores, slices, lines, sets, ways, mshrs,
targets and writebacks take a number; policy takes lru, fifo or random SEED; misses takes explicit
or inverted; exclusive takes on or off; init takes a word and its value; counter takes a word.
A line that begins with # is a comment.

Documents: docs/TEXTS.md (each line and answer), docs/PROTOCOL.md (states and messages),
docs/EXAMPLES.md (scripts to begin with)

Example: lockup script examples/first_add.txt";

/// What is below the options of `coverage`.
pub const COVERAGE: &str = "\
The sum is printed as 'lockup script --coverage' prints the counts of one script: a line for each cell
of the protocol's tables, with how often it was met, as far as one of the files lists it:

  cache IS_D Inv blocked 2
  directory S PutM I 0

A file may hold several such outputs, one after another.

Documents: docs/TEXTS.md (coverage), docs/PROTOCOL.md (the tables)

Example: lockup coverage first.txt second.txt | grep ' 0$'";

/// What is below the options of `try`.
pub const TRY: &str = "\
Lines come from standard input, a terminal or a pipe, and each is answered at once. A line is one of
a script ('lockup script --help' lists them), or:

  load 0 8            core 0 asks for word 8, under its lowest free tag
                      (or store 0 8 VALUE, add 0 8 VALUE, cas 0 8 EXPECTED NEW)
  next                makes the next delivery ('next 1' that of slice 1)
  undo                takes the last line back, with all that it did
  save FILE           writes the script so far
  help                lists these
  quit                ends, as the end of the input does

Replies are handed out as they come. Lines of the prompt's own show the script's lines that they are.

Documents: docs/TEXTS.md (each line and answer)

Example: lockup try examples/first_add.txt";

/// What is below the options of `chart`.
pub const CHART: &str = "\
Without options, a diagram in Mermaid's words: each message an arrow where it is delivered. With
--svg, one line over time, from top to bottom: a lifeline for the directory and each core that takes
part, with its states; each message an arrow from its sending to its delivery, dashed while it is in
flight; a ring where a message had to wait or an access stalled, and why. The line is the one that a
command names first, or that of --line, which draws such a picture by itself.

Documents: docs/TEXTS.md (both diagrams)

Examples: lockup chart examples/shared_line.txt
          lockup chart --svg examples/invalidation_before_data.txt > run.svg";

/// What is below the options of `page`.
pub const PAGE: &str = "\
With --guess the page asks for the answer of each command before it shows it.

The page shows this run. To go another way from one of its steps, make a page that has the program
itself: tools/browser --page FILE.

Documents: docs/TEXTS.md (pages, and the values in them; the page to play with)

Examples: lockup page examples/shared_line.txt > run.html
          lockup page --guess examples/two_upgrades_at_once.txt > run.html";

/// What is below the options of `litmus`.
pub const LITMUS: &str = "\
Each round runs the test's programs on a new machine, in a thread for each core, beside threads
that move messages. A line of the table is an outcome, with how many rounds had it:

       2 x=0 y=3 [0]=7

The replies come by their names, and the counters by their words. The last line says how many
rounds had an outcome that the test forbids; the status is 1 where there was one.

Documents: docs/TEXTS.md (the lines of a litmus test), docs/EXAMPLES.md (tests to begin with)

Example: lockup litmus examples/litmus/sb.txt";

/// What is below the options of `walk`.
pub const WALK: &str = "\
Each round runs the test's programs on a new machine, on one thread: the cores' steps and single
deliveries come in an order that is drawn from the round's seed. So the same words print the same
table, whose lines end with the seed of the first round that had the outcome:

       3 a=0 b=0 seed 5

A round that isn't over, and in which nothing can move, ends the run: 'stuck round N', with status 1.
So does one that isn't over after so many moves as --limit says: 'gave up round N after 1000 moves'.

With '--seed 5 --script' that round is printed, as a script for 'lockup script' and 'lockup chart',
and with '--seed 5 --page' as a page, which a browser steps through.

Jobs walk side by side on all processors, which changes nothing in the table. Several machines share a
long walk by parts, each of other seeds, which 'lockup merge' adds up:

  lockup walk sb.txt --rounds 1000000 --part > part1.txt
  lockup walk sb.txt --rounds 1000000 --seed 1000001 --part > part2.txt
  lockup merge sb.txt part1.txt part2.txt

A walk that was killed goes on where its last whole part ends, and prints what it would have printed:

  lockup walk sb.txt --rounds 1000000 --resume part1.txt > again.txt

Documents: docs/TEXTS.md (the lines of a litmus test), docs/EXAMPLES.md (tests to begin with)

Example: lockup walk examples/litmus/sb.txt --rounds 1000";

/// What is below the options of `merge`.
pub const MERGE: &str = "\
A part is what 'lockup walk --part' prints of some rounds of a litmus test. The files of the parts
follow the test, in any order, each with one part or more. The table is that of one walk with the
rounds of all parts, each counted once.

Parts of another test, with another limit or with seeds that are counted twice are refused. Seeds that
no part counts are printed as options of 'lockup walk --part':

  --seed 1000001 --rounds 1000000

Rows are what 'lockup run' prints of a sweep, as CSV. Those of several files are printed as one, each
once; a row that is there twice with other figures is refused. With --mean each combination of
settings has one row: of each figure the mean over its seeds, and half the width of a 95 % confidence
interval by Student's distribution.

Documents: docs/TEXTS.md (the lines of a part, the columns of rows)

Example: lockup merge sb.txt part1.txt part2.txt";

/// What is below the options of `run`.
pub const RUN: &str = "\
A text of programs says what each core asks for, one access after another:

  core 0
  repeat 100
    add 0 1            (or load 0, store 0 VALUE, cas 0 EXPECTED NEW)
    load 8..15         each of these words
    settle             wait until the core's accesses are performed
  end

A core waits for each access before the next, unless 'outstanding N' stands before the first core: up
to N of its accesses are under way then, from 1 to 64. One that stalls is tried again, and the report
counts for each core the primary and secondary misses, the stalls by their reason, and the most and
the mean of miss registers and of targets in use.

With 'pace N' there, or --pace N, each slice makes up to N deliveries after each access, from 0 to
64, each drawn from those that it can be asked for; the report then says how many moves there were,
and how many of them delivered.

Accesses and deliveries come in an order that is drawn from the seed. The report has a row for each
core and for each line. A miss is counted by its cause: cold (the core never had the line), replaced
(it gave the line up), upgrade (it may read the line and is to write it), and true or false (it lost
the line to another's write; true where another core wrote the very word since).

With --set, --seeds or --csv each combination of values and seeds is a run, and each run a row: FILE,
all settings, the seed, and the sums over all lines. A setting is cores, slices, lines, sets, ways,
mshrs, targets, writebacks, policy, misses, exclusive, outstanding or pace, and takes the place of
the text's. The last setting varies fastest, and the seeds faster still. Runs are side by side on all
processors. With --json the rows are one value of JSON. In rows and in JSON the names of columns say
what they count: true is misses_true_sharing there, and register stalls_register.

With '--seed 5 --script' the run of that seed is printed, as a script for 'lockup script', 'lockup
chart' and 'lockup page', and with '--seed 5 --page' as a page, which a browser steps through.

Documents: docs/TEXTS.md (the lines of programs, the columns of the report and of rows)

Example: lockup run examples/programs/false_sharing.txt
         lockup run examples/programs/histogram_shared.txt --set ways=1,2,4 --seeds 1..20 --csv";

/// What is below the options of `generate`.
pub const GENERATE: &str = "\
Workloads, and what their size counts:

  matmul      a blocked product of matrices: rows and columns, at most 64
  histogram   items that each core counts in bins that all share
  ring        items that each even core hands to the next one in a ring buffer
  lock        times that each core takes a lock by compare-exchange
  chase       lines that each core visits once, in an order drawn at random
  uniform     accesses of each core to lines drawn at random
  zipf        accesses of each core to lines of which few are drawn often
  stencil     rows and columns of a grid, of which each core has a band

Documents: docs/EXAMPLES.md (what each shows)

Example: lockup generate matmul --cores 4 --size 16 > matmul.txt";

/// What is below the options of `test`.
pub const TEST: &str = "\
A line of the script may end in '=' and the answer that is wanted of its command; further lines of
the answer stand in lines of their own that begin with '='. An answer of which nothing is wanted may
be any. Of each answer the first line that differs is printed, with the number of the first word
that differs in it, and the status is 1; or else how many lines are as wanted:

  issue 0 0 load 0      = pending 0
  waiting
  = deliver req 0 0   GetS   moves

Documents: docs/TEXTS.md

Example: lockup test examples/exercises/first_miss.txt";

/// What is below the options of `check`.
pub const CHECK: &str = "\
With --explain the line of the wrong entry follows the verdict, and what was expected there:

  illegal entry 1: reply   line 5: expected reply 5, written by entry 0 in line 4

Documents: docs/TEXTS.md (the lines of a trace, what makes one illegal)

Example: lockup check --explain examples/illegal_trace.txt";

/// What is below the options of `judge`.
pub const JUDGE: &str = "\
A history begins with lockup-history 1, and then has lines such as

  core 1 load 9 5 @120..140

for core 1's load of word 9, which was answered 5, and when, if that is known. Each core's lines stand
in its order. Of each word it is asked whether its accesses have an order that keeps each core's and
explains each reply (coherent), or none (incoherent, status 1), with what contradicts itself:

  incoherent word 9
  line 3 before line 4: core 1 asked for both
  ..

With --line the eight words of a line are to have one order of all their accesses.

Where values repeat, orders have to be tried: undecided, status 1, if the limit is reached.

Documents: docs/TEXTS.md (judging without an order)

Example: lockup judge examples/incoherent_history.txt";

/// What is below the options of `what-if`.
pub const WHAT_IF: &str = "\
Print a table, change a cell, and see which promise breaks:

  lockup table cache > mine.txt
  (in an editor: at S and Inv, 'Inv-Ack; S' in place of 'Inv-Ack; I')
  lockup what-if --cache mine.txt

Each step is an access, an eviction or a delivery. First states are searched in breadth, as many as
--states says. Then rounds of random steps are drawn from those that can happen; at the end of each
messages are delivered until nothing moves. At each step it is judged whether there is one writer or
only readers, whether readers have the newest block, whether each message has a row and room, and
whether something can move while a miss waits. The first run that breaks a promise is shortened and
shown, with status 1. Where none does, that proves nothing: 'lockup export murphi' with the same
tables writes a model that Rumur searches whole. What Rumur prints of a run that breaks a promise is
replayed with --from-murphi and the same tables, cores and states.

Documents: docs/PROTOCOL.md (the tables, and what changed cells break)

Example: lockup what-if --cache examples/what_if/reader_that_stays.txt";

/// What is below the options of `export`.
pub const EXPORT: &str = "\
murphi: each rule is one row of the tables by which the slices run, and has its cell's name, so a
counterexample reads like them:

  lockup export murphi --cores 3 > model.m
  rumur --output model.c model.m
  cc -O2 -o model model.c -lpthread -mcx16
  ./model

--cache and --directory take tables as 'lockup table' prints them, with changed cells; without them
the tables are ours.

With --closed the cores may cease to ask at any time, and Rumur, not CMurphi, judges that each miss
and each eviction can still be completed then.

smt: each query is one row, of any number of cores: the invariant holds before it and not after it.
All are to be unsat. tools/second-opinion asks z3 and cvc5:

  lockup export smt > queries.smt2
  z3 queries.smt2

Documents: docs/PROTOCOL.md (the tables, and what Rumur finds), docs/COHERENCE.md (the queries)";
