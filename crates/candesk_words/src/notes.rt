//! The text in the help of each command below its options.

/// For `check`.
pub(crate) const CHECK: &str = "\
Writes a line for each problem: its code, the code's name, and what it is about. The exit status is 1 if there are any.
With `--json`, each problem is a JSON object that also has the bytes of the text that it is about.

Example: a message whose sender isn't a node:
  $ printf 'BU_: Ecu\\nBO_ 1 A: 0 N\\n' > sender.dbc
  $ candesk check sender.dbc
  13 UnknownNode 1 A N";

/// For `decode`.
pub(crate) const DECODE: &str = "\
Reads a log as `candump -L` writes it. Writes each line, followed by the decoded message if the line has a data frame. A
frame that is shorter than its message is not decoded; with `--short`, the signals that it still has are. With `--json`,
each line becomes a JSON object; with `--csv`, each decoded signal becomes a CSV row.

Example:
  $ candesk decode examples/wheel.dbc < examples/wheel.log
  (1.5) can0 123#0A01 :: Wheel(Speed: 537 rpm)";

/// For `dump`.
pub(crate) const DUMP: &str = "\
Writes a layout diagram of each message: its name, message ID and length (DLC), a line for each byte with a cell for each
bit, and a line for each signal, whose number is what the cells show. With `--json`, each message is a JSON object with
its signals, and a last object has everything that belongs to no message. With `--at`, each message, sender,
signal, receiver and entry is a JSON object that has the bytes of the text that name it.

Example:
  $ candesk dump examples/wheel.dbc
  Message Wheel 291 2
     0:   0   0   0   0   0   0   0   0
     1:   0   0   0   0   0   0   0   0
     0 Speed 0|16@1+";

/// For `explain`.
pub(crate) const EXPLAIN: &str = "\
If the database is rejected, writes the line of its first error with the token underlined, what was found, what is
expected, and the usual reason with its remedy; then the same, as guesses, for later errors. Otherwise writes what
`check` reports, with the line of each problem and its remedy. The exit status is 1 if there is any. With `--json`, each
error, guess or problem is a JSON object that also has the bytes of the text that it is about.

Example: a limit that isn't a number:
  $ printf 'BO_ 1 A: 1 N\\n SG_ S : 0|8@1+ (1,0) [0|inf] \"\"\\n' > limit.dbc
  $ candesk explain limit.dbc
  line 2: 2 Statement
   SG_ S : 0|8@1+ (1,0) [0|inf] \"\"
                           ^~~
  found: the word inf
  expected: '-', '+' or a number
  reason: inf and nan are not numbers; as limits of a signal, [0|0] means that there are none
  candesk: line 2: 2 Statement";

/// For `print`.
pub(crate) const PRINT: &str = "\
Writes the database in its one canonical form.

Example:
  $ candesk print examples/wheel.dbc
  VERSION \"\"
  NS_ :
  BS_:
  BU_: Ecu
  BO_ 291 Wheel: 2 Ecu
   SG_ Speed : 0|16@1+ (2,5) [0|0] \"rpm\" Ecu";

/// For `session`.
pub(crate) const SESSION: &str = "\
Reads a script, one command per line: edits of the database, lines of a log to keep, and what to show. Answers each with
what was asked for and `ok`, or why the command is refused. After an edit, everything is shown as the edited database has
it. With `--short`, frames that are shorter than their message show the signals that they still have. With `--keep N`, only
the last N lines are kept.

Commands; P is the index of a message and Q that of a signal in it, from 0, and N is a message's identifier:
  log LINE                show lines            show diagnostics                   show layout P
  print
  add-message P BO_ ..    remove-message P      change-message P NAME SIZE SENDER  renumber P N
  add-signal P Q SG_ ..   remove-signal P NAME  change-signal P SG_ ..             rename-signal P OLD NEW
  set-mux SG_MUL_VAL_ ..  set-values VAL_ ..    set-attribute BA_ .. BO_ ..        set-table VAL_TABLE_ ..
  drop-mux N NAME         drop-values N NAME    drop-attribute N \"NAME\"            drop-table NAME

Example:
  $ printf 'log (1.5) can0 123#0A01\\nremove-signal 0 Speed\\nshow lines\\n' > wheel.script
  $ candesk session examples/wheel.dbc < wheel.script
  ok
  ok
  (1.5) can0 123#0A01 :: Wheel()
  ok";
