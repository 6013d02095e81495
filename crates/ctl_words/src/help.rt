use release::versioned;

const HELP: &str = "Commands a running cfdp_server over its control socket.

Usage: cfdp_ctl --control PATH [OPTIONS] [COMMAND [WORD..]]

Without a command it reads commands from standard input, one on each line, and prints each reply.

  --control PATH             the server's control socket (default: the variable CFDP_CONTROL)
  --wait-for-server SECONDS  how long a server may take to reply, 0 to 86400 (default: 5)
  --colour WHEN              auto, always or never: auto colours a terminal, unless NO_COLOR is set
  --width COLUMNS            how wide tables are, 40 to 1000 (default: the variable COLUMNS, or 100)
  --help                     prints this, and ends
  --version                  prints the version, and ends

Commands:
  status [--json] [--watch] [--failed] [--remote R]
                             prints users, transactions, the outbox, remotes and refusals as tables
      --json                 prints the JSON lines as received
      --watch                refreshes each second
      --failed               only the transactions that failed
      --remote R             leaves out transactions, files and links of other entities
  check                      prints one line for monitoring: OK, WARNING (links held, transactions that failed,
                             received files that can't be stored, a log that can't be written) or
                             CRITICAL (the outbox is full, or no server answers)
  follow [--json] [--user U] [--transaction SOURCE.SEQ] [--last N] [--level L] [--follow-again]
                             prints a line for each event as it happens
      --json                 prints the JSON events as received
      --user U               only events of this user
      --transaction S.N      only events of this transaction
      --last N               first the last N events that the server has kept, up to 1024
      --level L              events of a level and above: detail, info or warning (default: info, which
                             leaves out the pieces of files; with --json all)
      --follow-again         if the server goes away, waits for the next one and follows that
  send --to REMOTE [--user U] [--class N] [--closure] [--urgent] [--into FOLDER] [--wait] [--retry N]
                             [-r, --recursive] FILE..
                             puts files in the outbox, each under its own name; the receiver doesn't
                             learn any folder of this machine
      --to REMOTE            the receiving entity
      --user U               the user whose files they are (default: the server's only user)
      --class N              1 (unacknowledged) or 2 (acknowledged); default: 2
      --closure              asks the receiver, in class 1 too, to report at the end what became
                             of the file
      --urgent               before the user's other files, unless these are urgent too
      --into FOLDER          a folder at the receiver
      --wait                 waits until each file has ended
      --retry N              with --wait: sends a file that didn't arrive up to N times again
      -r, --recursive        a folder stands for its files and those of the folders below it, named
                             relative to it
  watch FOLDER --to REMOTE [--user U] [--class N] [--into FOLDER] [--once] [--delete]
                             sends each file that comes into a folder, in the order of their names. A
                             file that has arrived is moved to the subfolder sent, any other to failed,
                             with the reason beside it. Names that begin with a dot are left alone
      --to REMOTE, --user U, --class N, --into FOLDER
                             as for send
      --once                 ends when no file is left to send
      --delete               deletes a file that has arrived after ten seconds in sent
  outbox [--json]            prints the files that wait, with their numbers
  drop NUMBER                takes a file out of the outbox
  hold REMOTE, hold all      holds the link to an entity, or each link: nothing is sent there
  release REMOTE [SECONDS]   opens the link to an entity again, for so many seconds if these are given
  release all                opens each link again
  rate REMOTE N, rate N      sends files to an entity, or to each one without a limit of its own, at
                             N octets a second at most; off in place of N: without a limit
  reopen                     has the server open its log anew
  cancel, suspend, resume, abandon SOURCE.SEQ
                             does this to a transaction under way
  cancel, suspend, resume, abandon [--all] [--remote R] [--user U] [--yes]
                             does this to each transaction under way; on a terminal it asks first
      --all                  all of them
      --remote R             those with this entity at the other end
      --user U               those of this user
      --yes                  doesn't ask
  history --log FILE.. [--since T] [--remote R] [--failed] [--json]
                             prints a line for each transaction that ended, from files of the server's
                             log, and their sums; needs no server
      --since T              those that ended since a moment in UTC: 2026-11-26, or 2026-11-26T12:00:00Z
      --remote R             those with this entity at the other end
      --failed               those that failed
      --json                 prints JSON, an object for each
  resend SOURCE.SEQ [--log FILE..]
                             sends the file of a transaction that has ended here again: the same file,
                             entity, class and names. Refuses one that changed or is gone
      --log FILE             files of the server's log, for a transaction whose file the server has
                             forgotten
  windows PLAN [--check]     opens and holds links by a plan, until its last window has ended. Each line of
                             it has UTC from, UTC until, an entity and maybe a rate in octets a second:
                             2026-12-01T10:00:00Z 2026-12-01T10:08:00Z 7 8000
      --check                only reads the plan, and prints it as a table; needs no server
  journal SOURCE.SEQ         prints a transaction as a script, which cfdp_replay plays
  any other                  is sent to the server as it is. Put -- before words that begin with a
                             hyphen.

Status 0: the server took the command, or each of them; with send --wait or watch --once, each file
arrived. 1: no server answers, or it went away. 2: the command line or a plan is wrong. 3: the server
refused a command, a line wasn't a command, a file doesn't exist, can't be read or can't be sent again,
or a number can't be kept. 4: with send --wait or watch --once, a file didn't arrive. With check: 0 for
OK, 1 for WARNING, 2 for CRITICAL.
";

/// What `--help` prints.
pub fn ctl_help() -> &'static str {
    HELP
}

/// What `--version` prints.
pub fn ctl_version() -> &'static str {
    versioned!("cfdp_ctl ", "\n")
}
