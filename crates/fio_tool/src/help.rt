//! The text of help after the usage: for the program, and for each subcommand.

/// What all tools read and write, the statuses, an example.
pub(crate) const PROGRAM: &str = "\
Each subcommand reads standard input to its end, and then writes its text to standard
output. It takes no file as an argument. What it reads and writes, its statuses and an
example: fio2070 show --help, and so on.

Exit status:
  0  the text reports no fault; help and version
  1  the text reports a fault: a faulty line, a refused event, a broken rule, an input
     of more than 1048576 octets
  2  the command line names no subcommand, or is invalid
  3  a read or a write failed, or memory ran out

Example:
  $ echo 3605 | fio2070 show
  poll block 5";

/// What `show` reads and writes, its statuses, an example.
pub(crate) const SHOW: &str = "\
Reads:   frames, one a line, each octet as two hexadecimal digits, with no blank, no 0x
         and no carriage return. A line that is empty or begins with # is skipped. For
         captures in other forms see docs/CAPTURES.md.
Writes:  what each frame says. A line with a fault gives `line N: ` and the fault, and
         the lines below it are shown all the same.

In a block:
  status  four bits have names: 08 C, more entries waited than this block takes; 04 F,
          entries directly before this block were pushed out by an overflow; 02 E, the
          same block number was asked for again; 01 G, the block number is not the one
          before plus one
  stamp   the module's counter in milliseconds: of a block when it was made, 32 bits; of
          an entry when its input changed, the low 16 bits
  wide    the time of an entry in 32 bits, which follows from both stamps

Exit status:
  0  no line has a fault
  1  a line has a fault, or the input has more than 1048576 octets
  3  a read or a write failed, or memory ran out

Example:
  $ echo 3605 | fio2070 show
  poll block 5";

/// What `simulate` reads and writes, its statuses, an example.
pub(crate) const SIMULATE: &str = "\
Reads:   a script. Its first line is `fio2070 script 1 ID FIRST`: the identification
         octet of the module, and the first block number of the CPU. Version 2 has
         `restart` too, and version 3 two limits behind FIRST: the most entries of a
         block, 1 to 255, and the most that wait, 1024 to 8192. Each further line is an
         event:
           scan LEVELS    the module samples its inputs, 16 hexadecimal digits
           sync           LINESYNC goes from 0 to 1 at the module
           raise FLAGS    status flags are raised, 2 hexadecimal digits
           poll           the CPU sends a poll
           send FRAME     the CPU sends another command
           to-module N    the bus delivers the Nth frame sent to the module
           to-cpu N       the bus delivers the Nth frame sent to the CPU
           restart        the module restarts
         A line that is empty or begins with # is skipped, but for the first.
Writes:  a line with the outcome of each event, then the counter, the CPU's block number,
         how many entries wait, and the CPU's record: `gap` where an overflow pushed
         entries out, and each entry with its stamp and its wide time. A refused event is
         the last line. For status, stamp and wide see fio2070 show --help.

Exit status:
  0  each event is done
  1  the script has a fault, an event is refused, or the input has more than 1048576
     octets
  3  a read or a write failed, or memory ran out

Example:
  $ printf 'fio2070 script 1 2 0\\npoll\\nto-module 1\\nto-cpu 1\\n' | fio2070 simulate
  1 sent 1 3600
  2 sent 1 b600000000000000
  3 block entries 0 status 00
  counter 0
  number 1
  waiting 0
  record 0";

/// What `check` reads and writes, its statuses, an example.
pub(crate) const CHECK: &str = "\
Reads:   a transcript of what a CPU's end sent and heard, in order, a frame a line:
         `> FRAME` for one that it sent, `< FRAME` for one that it heard. A line that is
         empty or begins with # is skipped.
Writes:  `good N frames`, or `line N breaks RULE` for the first line that breaks a rule
         and the first rule that it breaks, of those that fio2070(1) lists. They suppose a
         bus that repeats no frame and delivers an answer before the next command or
         never, a module with the standard limits that was not restarted, and a CPU that
         never ran out of memory. Where a line is no frame, `line N: bad line`.
         What entries say, such as a change that comes twice, is not judged here: fio2070
         record judges it. If standard error is a terminal, it says so below `good`.

Exit status:
  0  the transcript keeps the rules
  1  it breaks one, a line is no frame, or the input has more than 1048576 octets
  3  a read or a write failed, or memory ran out

Example:
  $ printf '> 3605\\n< b6050000000003e8\\n> 3605\\n' | fio2070 check
  line 3 breaks advance";

/// What `record` reads and writes, its statuses, an example.
pub(crate) const RECORD: &str = "\
Reads:   a transcript, as fio2070 check does.
Writes:  what the CPU of the transcript recorded: `record N`, and then its N items, `gap`
         where an overflow pushed entries out, and each entry with its stamp and its wide
         time. Where an entry or an answer breaks a rule on content, only the items above
         the first such breach, and then `line L input I breaks RULE`, for an answer
         `line L breaks RULE`, with its line and one of:
           order      An entry is later than the entry above it, or has its time and a
                      higher input, if no block without C ends between them.
           fresh      An entry is later than the stamp of the latest block without C,
                      which had all entries up to that stamp.
           alternate  The entries of an input have the states 0 and 1 in turn.
           apart      An entry of an input follows the one before no sooner than the
                      filter for its change lets it.
           ignored    An input that is ignored has no entry.
           state      An answer 181 has the states of the record at its stamp.
           clock      The stamp of a 177, 180 or 181, or of a block without E, is not
                      before the latest one above.
           done       An answer 178 has no S: a load of the counter is never refused.
           accepted   An answer 179 has no S, if its configuration names no input above
                      63.
           cleared    An answer 177 has none of the flags that its command clears.
           watchdog   An answer 186 has Y, if another 186 is above.
         docs/FORMATS.md says when each is judged. A transcript may begin anywhere in a
         log: what is heard above its first command is passed over. If a line from there
         on breaks a rule of fio2070 check, or any line is no frame, that as check writes
         it, and no record. For stamp and wide see fio2070 show --help.

Exit status:
  0  the transcript keeps the rules
  1  it breaks one, a line is no frame, or the input has more than 1048576 octets
  3  a read or a write failed, or memory ran out

Example:
  $ printf '> 3605\\n< b605018c03e700000003e8\\n' | fio2070 record
  record 1
  input 12 state 1 stamp 999 wide 999";
