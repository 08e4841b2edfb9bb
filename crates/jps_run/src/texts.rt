//! The texts that are printed whole.

ghost use Rattle.std.specs.Prelude.{◌≡◌};
ghost use Rattle.jps_run.specs.Texts as spec;

/// What `--help` prints.
#[tactic(auto, unfolding(crate::specs::Texts::help_text))]
pub(crate) fn help_text() -> &'static [u8]
    ensures { result.now ≡ spec.help_text }
{
    b"usage: jps COMMAND ...
  jps query MAP SX SY GX GY [engine=ENGINE] [states=arrival|cell] [tables=FILE] [show=points|cells|trace] [rule=none|one|both]
      a least walk from the cell (SX,SY) to the cell (GX,GY) on the map
  jps solve MAP SCRIPT [engine=ENGINE] [states=arrival|cell] [tables=FILE] [show=points|cells|trace] [rule=none|one|both]
      one line for each command of the script: edits of the map, and queries
  jps live MAP [engine=ENGINE] [states=arrival|cell] [tables=FILE] [show=points|cells|trace] [rule=none|one|both]
      the same for a script on standard input, each command answered as it comes
  jps serve MAP [engine=ENGINE] [states=arrival|cell] [tables=FILE] [show=points|cells] [rule=none|one|both]
      for games and robots, without end: each line on standard input is answered as it comes: edits, queries,
      walks to the nearest cell that can be reached, the first move and the least cost from each cell to one
  jps scen MAP SCEN [engine=ENGINE] [states=arrival|cell] [tables=FILE] [show=taken] [rule=none|one|both]
      a row for each entry of the scenario, its length judged by the least cost, and their sum; with show=taken
      also how many states each search took
  jps judge MAP SCEN WALKS [rule=none|one|both]
      a row for each entry: the walk that another program tells of it accepted, or why not, and their sum
  jps lengths MAP SCEN [rule=none|one|both]
      the scenario again, with the least length of each entry that has a walk
  jps problems MAP SEED N [rule=none|one|both]
      a scenario of N entries between free cells of the map that a walk joins, made from the number SEED
  jps prove MAP SX SY GX GY [rule=none|one|both]
      a certificate that the cost of a least walk is least, or that there is no walk
  jps check MAP CERT [rule=none|one|both]
      whether the certificate proves what it claims on the map; nothing is searched
  jps make SEED W H P
      a map of W by H cells, P percent of them blocked, made from the number SEED
  jps drill SEED [engine=ENGINE] [states=arrival|cell] [rule=none|one|both]
      150 edits and queries on the map of SEED, summed up in one line that is the same by each engine
  jps draw MAP SX SY GX GY [engine=ENGINE] [states=arrival|cell] [show=points|trace] [rule=none|one|both]
      a picture (SVG) of the map and of a least walk, and with show=trace of the cells of the taken states
  jps costs MAP X Y [rule=none|one|both]
      the least cost from the cell (X,Y) to each cell, a line for each row: `A,B`, or `-` where no walk leads
  jps tables MAP [rule=none|one|both]
      the tables of the engine plus as bytes, for other programs
  jps boxes MAP X Y [rule=none|one|both]
      for each direction the least box of cells to which some least walk from the cell (X,Y) begins so
  jps moves MAP X Y [rule=none|one|both]
      the first move from the cell (X,Y) to each cell, a line for each run of cells with one first move
  jps --help
      this text
  jps --version
      the version

A cell is its column and its row, which count from 0 in the upper left. `walk A B` is a walk of A
straight and B diagonal moves; its points follow: its first cell, its last cell, and each cell at
which it turns, or by an engine that jumps each cell at which a jump stopped. show=cells shows each of
its cells, show=trace each state that the search took as well: a cell, and how it was come to.
ENGINE is plain, where none is named, jps, block or plus. Walks cost the same by each: jps jumps cell by
cell, block over 512 cells at a time, plus by tables that are made when the map is read.
Beside one of these three states=arrival, where none is named, has the search keep a state for each cell and
direction of arrival, states=cell one for each cell: mostly in less time, and walks cost the same.
tables=FILE beside engine=plus takes the tables that `jps tables` wrote to FILE; those of another map, of
another rule, or with a wrong entry are refused.
Where none is named serve has engine=block, and beside an engine that jumps states=cell. Its lines are those of
scripts, and `near SX SY GX GY`, `field X Y`, `costs X Y`. None ends it: another line is answered `refused T1`, one
of more than 128 bytes `refused T2`, and where memory is refused a line is answered `memory` and changes nothing.
For query and scen, on maps of at most 16384 cells, ENGINE may also be boxes, whose search leaves out moves
by goal boxes, or moves, which follows first moves and takes no states (no show=trace, no show=taken).
Of the two cells beside a diagonal move rule=none lets none be blocked, rule=one one, rule=both both; where
no rule is named it is none.
In a checkout `./jps --program` prints the path of the program: loops of short calls are quicker by that path.

statuses: 0 done; 1 done, and a row of `scen` is neither agree nor near, `judge` or `check` refuses, `prove`
has no free ends on one layer, `draw` no free ends, `lengths` left an entry out, or `problems` found fewer than N;
2 the words are refused; 3 a text is refused; 4 a read failed; 5 a write of the output failed; 6 memory was refused
faults, one line on standard error:
  jps: word N            word N is missing, or no call has it there; words are counted from 1
  jps: TEXT CODE line N  line N of the map, script, scen, cert or walks breaks its form
  jps: TEXT long         the text is longer than 67108864 bytes, a cert, walks or tables than 1073741824
  jps: map large         the map has more than 16384 cells, and boxes or moves was asked for
  jps: tables F1         FILE begins with another head than the map's tables under the rule; F2: it has another length
  jps: tables F3 LAYER X,Y D  this is the first entry in FILE that is another: for this layer, cell and direction
  jps: read, jps: write, jps: memory
"
}

/// What `--version` prints.
pub(crate) fn version_text() -> &'static [u8]
    ensures { result.now ≡ spec.version_text }
{
    b"jps 1.3.0\n"
}
