//! The help texts: what each command reads and writes, its limits, and an example.
//!
//! What holds for every command (how a pile is written, the limits, the exit status) is in the help of the program
//! only. `-h` prints what a command does and its options; `--help` also prints the text after the options.

/// The help of the program or of one command.
#[derive(Clone, Copy)]
pub(crate) struct Help {
    /// What it does, in one line. The long help begins with all lines.
    pub(crate) about: &'static str,
    /// The text after the options in the long help.
    pub(crate) details: &'static str,
}

/// The text after the options in the program's short help. `-V`, `help` and `explain` are handled by the program
/// itself.
pub(crate) const SHORT: &str = "\
\x20 -V, --version  Print the version

'sandpile help COMMAND' describes the input and output of a command, and
'sandpile explain' describes each fault.";

pub(crate) const PROGRAM: Help = Help {
    about: "Settles sandpiles on a grid, and computes in the sandpile group",
    details: "\
\x20 -V, --version
          Print the version

A site with 4 or more grains topples: it gives one grain to each neighbour.
Grains that leave the grid are lost.

Input: text on standard input. A pile is a list of numbers separated by white
  space: its width, its height, and the grains on each site, row by row. The
  letter c after the height makes it a cylinder: its rows wrap around.

Output: text on standard output, or with --pgm a picture (plain PGM). It is
  written once all of it is ready; only 'drops --count' writes while it runs.
  Piles are written in the format in which they are read, so commands can be
  piped together: 'identity', 'add', 'inverse', 'multiple' and 'recurrent' write
  only a pile; so do 'settle', 'drops' and 'lab' with --pile.

Limits: width and height from 1 to 256, cylinders at least 3 wide; at most
  1,099,511,627,775 grains (the grain limit); at most 1,048,576 bytes of input.

Faults: one line on standard error, 'fault NUMBER NAME'. Nothing is written to
  standard output then, or only the first N bytes if writing failed. 'sandpile
  explain' lists all faults; 'sandpile explain NUMBER' says what one means and
  what to do. At a terminal, details about the input follow the line.

Status: 0 on success, 1 for a fault, 2 for an invalid command line.

Example: a pile 3 wide and 1 high, with 4 grains in the middle.

  $ echo '3 1  0 4 0' | sandpile settle
  3 1
  1 0 1
  odometer
  0 1 0
  lost 2
  topplings 1

'sandpile help COMMAND' describes the input and output of a command. 'sandpile
--version' prints the version, and the logic of the proofs.",
};

pub(crate) const SETTLE: Help = Help {
    about: "Settles a pile: topples sites until each has at most 3 grains",
    details: "\
Input: a pile (see 'sandpile --help' for the format).

Output: the settled pile; the line 'odometer', then how often each site toppled;
  'lost N', the grains that left the grid; 'topplings N', the number of
  topplings. With --pile, only the settled pile; with --pgm, only a picture of
  it.

Example:

  $ echo '3 1  0 4 0' | sandpile settle
  3 1
  1 0 1
  odometer
  0 1 0
  lost 2
  topplings 1",
};

pub(crate) const BURN: Help = Help {
    about: "Tests whether a pile is recurrent (burning test)",
    details: "\
Input: a pile (see 'sandpile --help' for the format) with at most 3 grains on
  each site.

Output: 'recurrent'; or 'forbidden N' and the N sites of the greatest forbidden
  set, each as its column and row, counted from 0.

Example:

  $ echo '2 1  0 0' | sandpile burn
  forbidden 2
  0 0
  1 0",
};

pub(crate) const IDENTITY: Help = Help {
    about: "Writes the identity of the sandpile group of a grid",
    details: "\
Input: none.

Output: the recurrent pile that leaves every recurrent pile unchanged when added
  to it. With --pgm, a picture of it.

Limits: width and height from 1 to 256, cylinders at least 3 wide.

Example:

  $ sandpile identity --width 2 --height 2
  2 2
  2 2
  2 2",
};

pub(crate) const DROPS: Help = Help {
    about: "Settles a pile, then drops grains on it, one after another",
    details: "\
Input: a pile (see 'sandpile --help' for the format), then the site number of
  each drop, counted from 0, row by row. With --count, only the pile: the sites
  come from ChaCha8 stream --stream of the seed, without its first --from sites.
  In epoch 0, dropper k of 'sandpile lab' uses stream k.

Output: a table with a line per drop: its number (from 0 or --from), its site,
  and its avalanche: topplings (size), sites that toppled (area), their greatest
  distance from the drop (reach), and grains that left the grid (lost). Then the
  pile, 'lost N' and 'topplings N', both including the first settling. With
  --table, only the table; with --pile, only the pile.

Limits: at most 4,294,967,295 drops with --count. Drops count towards the grain
  limit.

Example:

  $ echo '3 3  3 3 3  3 3 3  3 3 3  4 0' | sandpile drops
  number site size area reach lost
  0 4 10 9 2 12
  1 0 0 0 0 0
  3 3
  2 3 1
  3 0 3
  1 3 1
  lost 12
  topplings 10",
};

pub(crate) const ADD: Help = Help {
    about: "Adds two recurrent piles: adds their heights, then settles",
    details: "\
Input: two recurrent piles of the same shape, one after the other (see 'sandpile
  --help' for the format).

Output: the settled sum, a recurrent pile. With --pgm, a picture of it.

Example:

  $ echo '2 1  3 1  2 1  3 3' | sandpile add
  2 1
  3 1",
};

pub(crate) const INVERSE: Help = Help {
    about: "Writes the inverse of a recurrent pile",
    details: "\
Input: a recurrent pile (see 'sandpile --help' for the format).

Output: the recurrent pile whose sum with the input is the identity. With
  --pgm, a picture of it.

Example:

  $ echo '2 1  3 1' | sandpile inverse
  2 1
  0 2",
};

pub(crate) const MULTIPLE: Help = Help {
    about: "Writes the N-fold sum of a recurrent pile",
    details: "\
Input: a recurrent pile (see 'sandpile --help' for the format).

Output: the sum of N copies of the input: the identity if N is 0, the input
  itself if N is 1. With --pgm, a picture of it.

Example:

  $ echo '2 1  3 1' | sandpile multiple --times 2
  2 1
  2 3",
};

pub(crate) const RECURRENT: Help = Help {
    about: "Writes the unique recurrent pile equivalent to a pile",
    details: "\
Input: a pile (see 'sandpile --help' for the format).

Output: the recurrent pile that differs from the input by topplings, forward or
  backward: the input itself if it is recurrent, otherwise the settled sum of
  the settled input and the identity. With --pgm, a picture of it.

Example:

  $ echo '2 1  0 0' | sandpile recurrent
  2 1
  3 3",
};

pub(crate) const LAB: Help = Help {
    about: "\
Drops grains on a pile from many threads at once, in epochs

It has three uses:
  - burning in a pile quickly: with --pile it writes only the pile, on which
    'drops' can then measure avalanches
  - following density and loss: it writes a line per epoch, with the grains that
    left the grid and the grains on the pile
  - showing that threads do not matter: the same seed gives the same pile and
    odometer, however the threads interleave",
    details: "\
Input: a pile (see 'sandpile --help' for the format).

Output: a table with a line per epoch: its number, from 0; its drops; its
  topplings; the grains that left the grid (lost); the grains on the pile after
  it. Then 'total', with the same for all epochs; the pile after the last epoch;
  the line 'odometer', then how often each site toppled. With --journal, also
  the line 'journal', then the epoch, number in the epoch, dropper and site of
  each drop. With --pile, only the pile; with --pgm, only a picture of it.

Epochs: in an epoch, droppers drop --drops grains each on one shared pile,
  workers topple it, and observers count the drops, each in a thread of its own.
  Then the pile settles, and the next epoch starts from it.

Threads: dropper k of epoch t drops at the sites of ChaCha8 stream t*64 + k of
  the seed. So seed, droppers, drops and epochs determine the output, except for
  the order of the journal. --workers, --sweeps and --observers affect only that
  order, and save no time: they demonstrate and test that sand topples and is
  counted while it falls.

Limits: drops count towards the grain limit. A run needs up to about 40 bytes of
  memory per drop, counting all epochs.

Example:

  $ echo '1 1  0' | sandpile lab --droppers 2 --drops 3 --epochs 2
  epoch drops topplings lost grains
  0 6 1 4 2
  1 6 2 8 0
  total 12 3 12 0
  1 1
  0
  odometer
  3",
};

// The options of several commands.

pub(crate) const PGM: &str = "Write a picture (plain PGM) instead of text";

pub(crate) const PILE: &str = "Write only the pile, in input format";

// The options of `drops`, with their limits.

pub(crate) const COUNT: &str = "Number of random drops, up to 4294967295";

pub(crate) const DROPS_SEED: &str = "Seed, up to 4294967295 [default: 0]";

pub(crate) const STREAM: &str = "Stream, up to 4294967295 [default: 0]";

pub(crate) const FROM: &str = "Sites to skip, up to 4294967295 [default: 0]";

// The options of `identity` and `multiple`, with their limits.

pub(crate) const WIDTH: &str = "Number of columns, from 1 to 256";

pub(crate) const HEIGHT: &str = "Number of rows, from 1 to 256";

pub(crate) const TIMES: &str = "N, the number of copies, up to 18446744073709551615";

/// The name of a setting, and what it is.
#[derive(Clone, Copy)]
pub(crate) struct Setting(pub(crate) &'static str, pub(crate) &'static str);

// The settings of `lab`, with their limits.

pub(crate) const SEED: Setting = Setting("seed", "Seed, up to 4294967295");

pub(crate) const DROPPERS: Setting = Setting("droppers", "Droppers, from 1 to 64");

pub(crate) const DROPS_OF_EACH: Setting = Setting("drops", "Drops per dropper, up to 1000000");

pub(crate) const EPOCHS: Setting = Setting("epochs", "Epochs, from 1 to 100");

pub(crate) const WORKERS: Setting = Setting("workers", "Workers, from 1 to 16");

pub(crate) const SWEEPS: Setting = Setting("sweeps", "Sweeps per worker, up to 1000");

pub(crate) const OBSERVERS: Setting = Setting("observers", "Observers, up to 16");
